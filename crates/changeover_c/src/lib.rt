// The calls for C (include/changeover.h): each is that of changeover, with the same promise. A lent slice is a pointer and a length in C.
// A crate of their own, since an archive for C is not a library for other crates.
#![tactic(auto)]

ghost use Rattle.changeover.specs.Calls.{form_of, LookedOver, Learned, Checked, Added, Converted};
ghost use Rattle.format.specs.Form.{full, short};

#[unsafe(no_mangle)]
pub extern "C" fn changeover_look_over(book: &[u8], form: u32) -> u64
    ensures { LookedOver (form_of form) book.now result }
{
    changeover::changeover_look_over(book, form)
}

#[unsafe(no_mangle)]
pub extern "C" fn changeover_learn(book: &[u8], form: u32, sheet: &mut [u8]) -> u64
    ensures { Learned (form_of form) book.now sheet.old sheet.new result }
{
    changeover::changeover_learn(book, form, sheet)
}

#[unsafe(no_mangle)]
pub extern "C" fn changeover_check(book: &[u8], form: u32, order: &[u8], end: &mut [u8]) -> u64
    ensures { Checked (form_of form) book.now order.now end.old end.new result }
{
    changeover::changeover_check(book, form, order, end)
}

#[unsafe(no_mangle)]
pub extern "C" fn changeover_add(book: &[u8], form: u32, bytes: &[u8], out: &mut [u8]) -> u64
    ensures { Added (form_of form) book.now bytes.now out.old out.new result }
{
    changeover::changeover_add(book, form, bytes, out)
}

#[unsafe(no_mangle)]
pub extern "C" fn changeover_to_short(book: &[u8], out: &mut [u8]) -> u64
    ensures { Converted short book.now out.old out.new result }
{
    changeover::changeover_to_short(book, out)
}

#[unsafe(no_mangle)]
pub extern "C" fn changeover_to_full(book: &[u8], out: &mut [u8]) -> u64
    ensures { Converted full book.now out.old out.new result }
{
    changeover::changeover_to_full(book, out)
}
