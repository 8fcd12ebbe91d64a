// The laws of replication over whole runs of two peers, and a run that they speak of. Nothing here is for a program to
// call: a contract names each theorem, so that the check asks for its proof.
#![tactic(auto)]

ghost use Rattle.std.specs.Prelude.{◌≡◌};
ghost use Rattle.law.specs.Laws.{Laws};
ghost use Rattle.law.specs.Happens.{Happens};

// The laws hold of every run.
fn laws_of_runs()
    ensures { Laws }
{}

// There is a run in which replications copy and finish, both ways, and one resumes from a checkpoint.
fn run_that_finishes()
    ensures { Happens }
{}

// How many laws of replication are proved.
pub fn replication_laws_hold() -> u8
    ensures laws { Laws }
    ensures count { result ≡ 5 }
{
    laws_of_runs();
    5
}

// How many replications finish in the run that shows that the laws are not about nothing.
pub fn replication_happens() -> u8
    ensures happens { Happens }
    ensures count { result ≡ 3 }
{
    run_that_finishes();
    3
}
