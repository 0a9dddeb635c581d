// The jobs as the calls that C gets (changeover_c exports them): thin over the proved library, with number, position and place packed into one answer.
// A call is told the form of its book by a number.
#![tactic(auto)]

ghost use Rattle.std.specs.Prelude.{◌≡◌};
ghost use Rattle.changeover.specs.Calls.{form_of, LookedOver, Learned, Checked, Added, Converted};
ghost use Rattle.format.specs.Form.{full, short};

fn is_short(form: u32) -> bool
    ensures { result ≡ form_of form }
{
    form != 0
}

pub fn changeover_look_over(book: &[u8], form: u32) -> u64
    ensures { LookedOver (form_of form) book.now result }
{
    answer::pack(lookover::look_over(book, is_short(form)))
}

pub fn changeover_learn(book: &[u8], form: u32, sheet: &mut [u8]) -> u64
    ensures { Learned (form_of form) book.now sheet.old sheet.new result }
{
    answer::pack(learner::learn(book, is_short(form), sheet))
}

pub fn changeover_check(book: &[u8], form: u32, order: &[u8], end: &mut [u8]) -> u64
    ensures { Checked (form_of form) book.now order.now end.old end.new result }
{
    answer::pack_checked(checker::check(book, is_short(form), order, end))
}

pub fn changeover_add(book: &[u8], form: u32, bytes: &[u8], out: &mut [u8]) -> u64
    ensures { Added (form_of form) book.now bytes.now out.old out.new result }
{
    answer::pack(adding::add(book, is_short(form), bytes, out))
}

pub fn changeover_to_short(book: &[u8], out: &mut [u8]) -> u64
    ensures { Converted short book.now out.old out.new result }
{
    answer::pack(converting::convert(book, false, out))
}

pub fn changeover_to_full(book: &[u8], out: &mut [u8]) -> u64
    ensures { Converted full book.now out.old out.new result }
{
    answer::pack(converting::convert(book, true, out))
}
