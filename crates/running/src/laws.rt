// Laws of what is in force.
ghost use Rattle.running.specs.Dated.{SameCandidatesWhereAllEnd};
ghost use Rattle.running.specs.Laws.{SameCandidatesSameForce, NoEndIsCandidate, OneInForce, TrainAlone, OnlyOnItsDays};

/// The same candidates, the same schedule in force: by any two rules that say which days a schedule covers, in any two maps.
pub fn same_candidates_same_force()
    ensures { SameCandidatesSameForce }
{}

/// A schedule with no end is a candidate on every day with its weekday from its first on.
pub fn no_end_is_candidate()
    ensures { NoEndIsCandidate }
{}

/// In a map whose schedules all have a last day, the candidates are those that they were while every schedule had one.
pub fn same_candidates_where_all_end()
    ensures { SameCandidatesWhereAllEnd }
{}

/// At most one schedule of a train is in force on a day.
pub fn one_in_force()
    ensures { OneInForce }
{}

/// What is in force depends on the schedules of that train alone.
pub fn train_alone()
    ensures { TrainAlone }
{}

/// A cancellation hides its train only on its own days.
pub fn only_on_its_days()
    ensures { OnlyOnItsDays }
{}
