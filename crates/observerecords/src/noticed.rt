// What a walk over records notices beside the masks, and what it comes to where it is not refused.
// Uses filed for whether a step went, and the definitions of format.
ghost use Rattle.std.specs.Prelude.{◌≡◌, ◌||◌, not, ◌<◌, length};
ghost use Rattle.format.specs.Filed.{went_at};

// What is held beside the masks: the offset of the first step that row 11 names, 0 where none is, as in the definitions `held_with` and `first_named`, and whether
// some step did not go. The default is what is held before any record.
#[derive(Clone, Copy, Default)]
pub struct Noticed {
    pub named: usize,
    pub failed: bool,
}

// What a walk over records comes to: the value of its good answer, and what it noticed.
#[derive(Clone, Copy)]
pub struct Walked {
    pub value: usize,
    pub noticed: Noticed,
}

// What is noticed after the step at an offset, by the step that row 11 names then and whether some step before it did not go.
pub fn notice(s: &[u8], at: usize, named: usize, failed: bool) -> Noticed
    requires { at < length s.now }
    ensures { result ≡ record { named = named; failed = failed || not (went_at s.now at) } }
{
    Noticed {
        named,
        failed: failed | !filed::went(s, at),
    }
}
