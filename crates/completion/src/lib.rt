// Completion: one member's record is lent and changed in place, above the rule by value (`records::completed`).
#![tactic(auto)]

ghost use Rattle.std.specs.Prelude.{◌≡◌};
ghost use Rattle.records.specs.Records.{completed_record};

use states::MemberState;
use tags::Tag;

// The record is completed up to t, with so many tags left, and stays where it is.
pub fn complete(m: &mut MemberState, t: Tag, left: usize)
    ensures { m.new ≡ completed_record m.old t left }
{
    *m = records::completed(*m, t, left);
}

// The record completed, by a loan of it.
pub fn completed(m: MemberState, t: Tag, left: usize) -> MemberState
    ensures { result ≡ completed_record m t left }
{
    let mut r = m;
    complete(&mut r, t, left);
    r
}
