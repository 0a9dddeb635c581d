// Row 27 of the refusal table, by the states before and after a step that did not go: in a short book the list behind it has to be empty, in a full book the
// two lists have to be the same.
// Uses filed for whether the step went, input, limits, and the definitions of terms and format.
ghost use Rattle.std.specs.Prelude.{◌≡◌, ◌≤◌, length};
ghost use Rattle.limits.specs.Limits.{near_ceiling};
ghost use Rattle.input.specs.Bytes.{two};
ghost use Rattle.terms.specs.Facts.{same_facts};
ghost use Rattle.format.specs.Lists.{list_at, list_end};
ghost use Rattle.records.specs.Rows.{changes_listed, StepsListed};

// Whether two lists of facts are the same, the second of which has so many: their bytes are.
fn same_lists(s: &[u8], p: usize, q: usize, count: u16) -> bool
    requires { (list_end s.now p ≤ length s.now) × (list_end s.now q ≤ length s.now) × (p ≤ near_ceiling) × (q ≤ near_ceiling) × (count ≡ two s.now q) }
    ensures { result ≡ same_facts (list_at s.now p) (list_at s.now q) }
{
    if input::two_at(s, p) != count {
        return false;
    }
    let size = limits::FACT_SIZE * count as usize;
    let i = p + limits::COUNT_SIZE;
    let j = q + limits::COUNT_SIZE;
    &s[i..i + size] == &s[j..j + size]
}

// Row 27 of the step at an offset. In a full book the state before it is the list at `pre`.
#[tactic(auto, using(crate::proofs::Failed::listed_went, crate::proofs::Failed::listed_short, crate::proofs::Failed::listed_full), unfolding(format::specs::Lists::list_end))]
pub fn changes(s: &[u8], short: bool, pre: usize, at: usize) -> bool
    requires { StepsListed s.now short pre at }
    ensures { result ≡ changes_listed short s.now pre at }
{
    if filed::went(s, at) {
        return false;
    }
    let list = at + limits::STEP_SIZE;
    let count = input::two_at(s, list);
    if short {
        return count != 0;
    }
    !same_lists(s, pre, list, count)
}
