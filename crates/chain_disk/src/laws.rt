//! Laws of what a disk tells: what a crash may leave while calls follow one another.
ghost use Rattle.chain_disk.specs.Laws.{SettledLeaves, NoCallIsARun, CallIsARun, RunsFollow};
ghost use Rattle.chain_disk.specs.Laws.{NoCallStillPasses, RunsStillPass, CallStillPasses, SyncStillPasses};

/// Where nothing is pending, a crash leaves the content and nothing else.
pub fn a_settled_disk_leaves_its_content()
    //= A disk with nothing pending leaves its content after every crash.
    //= No body: a law over definitions, which has no body
    ensures { SettledLeaves }
{}

/// Where no call is made, a crash leaves an image of now.
pub fn no_call_is_a_run()
    //= No call is a run, which leaves what there was.
    //= No body: a law over definitions, which has no body
    ensures { NoCallIsARun }
{}

/// A call that takes one moment leaves an image from before it or one of what is pending after it.
pub fn a_call_is_a_run()
    //= A call is a run.
    //= No body: a law over definitions, which has no body
    ensures { CallIsARun }
{}

/// Two runs are one, and a crash in it is a crash in one of the two.
pub fn runs_follow()
    //= Images follow from call to call: two runs, one after the other, are a run.
    //= No body: a law over definitions, which has no body
    ensures { RunsFollow }
{}

/// Where what each crash at a moment leaves passes a test, what each crash at a later one leaves passes it too: where no call is
/// made, in two runs, in a call that takes a moment, and in a sync.
pub fn what_crashes_leave_stays()
    ensures none { NoCallStillPasses }
    //= What passes a test after every crash at one moment passes it after every crash at a later one.
    //= No body: a law over definitions, which has no body
    ensures follow { RunsStillPass }
    ensures call { CallStillPasses }
    ensures sync { SyncStillPasses }
{}
