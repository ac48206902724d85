//! What the promise of a run comes to.
ghost use Rattle.verifactu.specs.ChainPromise.{IsFoundAgain};
ghost use Rattle.verifactu.specs.AgencyPromise.{StaysOfChain};
ghost use Rattle.verifactu.specs.CommandLine.{OneCommand};
ghost use Rattle.verifactu.specs.FilePromise.{DamagedIsNotOwn, ForeignIsNotOwn};
ghost use Rattle.verifactu.specs.FurtherPromise.{CopyAppends};
ghost use Rattle.verifactu.specs.Stopping.{FaultsOnce, TearsAtMostOne, TearsByAFault, TearsForTillOrSender, TearsWhereItRose};
ghost use Rattle.verifactu.specs.Stopping.{TellsOfItsStop};

use shop_core::a_file_has_one_meaning;

/// A damaged file may be written for nobody, and one of another issuer not for this one: by `others` of `FileKept` both are as
/// they were after every run.
pub fn a_strange_file_is_not_own()
    ensures damaged { DamagedIsNotOwn }
    ensures foreign { ForeignIsNotOwn }
{
    a_file_has_one_meaning();
}

/// The history that a run finds begins with the one that the run before ended with, whether a crash came between them or not.
pub fn what_a_run_left_is_found_again()
    ensures { IsFoundAgain }
{
    a_file_has_one_meaning();
}

/// A copy that `follow` or `guard` writes is append-only: the bytes of the chain that it stood for stay its first bytes.
pub fn a_copy_is_append_only()
    ensures { CopyAppends }
{
    a_file_has_one_meaning();
}

/// What was handed over as runs of a chain is so of each that it begins: of the one that the next run finds.
pub fn what_was_handed_over_stays_of_the_chain()
    ensures { StaysOfChain }
{}

/// What is said of a day's stop comes to this: at most one entry is torn; none without a fault that a till or the sender answered;
/// one only where the disk's count of faults rose; it is a till's or the sender's; where the shop stopped, a till or the sender was
/// told; and at most one ask of all tills is answered with a fault of its own record.
pub fn a_day_stops_once()
    //= After a day at most one entry is torn.
    //= No body: a law over definitions, which has no body
    ensures one { TearsAtMostOne }
    //= None is torn without a fault that a till or the sender was answered.
    //= No body: a law over definitions, which has no body
    ensures fault { TearsByAFault }
    //= One is torn only where the disk's count of faults rose.
    //= No body: a law over definitions, which has no body
    ensures rose { TearsWhereItRose }
    //= It is the record of a till's ask that was answered with the disk's fault, or notes of the sender that met
    //= it.
    //= No body: a law over definitions, which has no body
    ensures whose { TearsForTillOrSender }
    //= Where the shop stopped, a till was told of it, or the sender at its notes.
    //= No body: a law over definitions, which has no body
    ensures told { TellsOfItsStop }
    //= At most one ask of all tills is answered with a fault of its own record.
    //= No body: a law over definitions, which has no body
    ensures once { FaultsOnce }
{}

/// Words ask for one command at most, so the command that each clause of `run` finds for them is one.
pub fn words_ask_for_one_command()
    //= Words ask for one command at most.
    //= No body: a law over definitions, which has no body
    ensures { OneCommand }
{}
