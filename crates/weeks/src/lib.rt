// Known weeks, as instances of one theorem over one list.
#![tactic(auto)]

ghost use Rattle.weeks.specs.Weeks.{WeeksKnown};

// Each answers and ends as written, or is admitted or not.
pub fn weeks_go_as_known()
    ensures { WeeksKnown }
{}
