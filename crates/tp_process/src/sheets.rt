ghost use Rattle.std.specs.Prelude.{◌≡◌, ◌≤◌, OnOk, IfOk};
ghost use Rattle.std.specs.Option.{option_copied, option_map};
ghost use Rattle.tp_process.specs.Sheets.{sheet_at, OpensSheet, ChangesSheet};
ghost use Rattle.tp_rules.specs.Sheet.{can_accept, command_or as kept_or, is_fresh as is_fresh_in, with_command, stamp_of, with_proposal};
ghost use Rattle.tp_sheet.specs.SiteSheet.{with_sheet, with_own_ack, choice_after_ack, with_acknowledgement, decision_after_vote, with_vote_of, with_known, final_of, final_after_learning, ballot_by, promise_by, with_try, choice_after_answer, with_acceptance, with_answer_of, with_promise};

use crate::place::Place;
use indexmap::IndexMap;
use tp_base::{CommandId, Made, NoMemory, PartitionId, Rank, Stamp};
use tp_choice::RecoveryAnswer;
use tp_ops::Command;
use tp_quorum::FastChoice;
use tp_sheet::Sheet;

/// The sheet of each command that the process has heard of, in the order of first sight.
pub(crate) type Sheets = IndexMap<CommandId, Sheet>;

/// Whether a command is fresh.
pub(crate) fn is_fresh(sheets: &Sheets, place: &Place, id: CommandId) -> bool
    ensures { let kept = sheet_at place.now.topology place.now.site sheets.now id
        in result ≡ is_fresh_in kept.site.partition.0 kept.sheet }
{
    match sheets.get(&id) {
        Some(sheet) => sheet.is_fresh(),
        None => true,
    }
}

/// The command that is kept in a sheet.
pub(crate) fn command_at<'a>(
    sheets: &'a Sheets,
    place: &Place,
    id: CommandId,
) -> Option<&'a Command>
    ensures { option_copied result ≡ (sheet_at place.now.topology place.now.site sheets.now id).sheet.command }
{
    match sheets.get(&id) {
        Some(sheet) => sheet.command(),
        None => None,
    }
}

/// The command that is kept in a command's sheet, or else this one.
pub(crate) fn command_or<'a>(sheets: &'a Sheets, place: &Place, command: &'a Command) -> &'a Command
    ensures { result.now
        ≡ kept_or command.now (sheet_at place.now.topology place.now.site sheets.now command.now.id).sheet }
{
    match command_at(sheets, place, command.id) {
        Some(kept) => kept,
        None => command,
    }
}

/// The final stamp of a command.
pub(crate) fn final_stamp(sheets: &Sheets, place: &Place, id: CommandId) -> Option<Stamp>
    ensures { option_map (λ t. t.0) result ≡ final_of (sheet_at place.now.topology place.now.site sheets.now id) }
{
    match sheets.get(&id) {
        Some(sheet) => sheet.final_stamp(),
        None => None,
    }
}

/// Opens a command's sheet, where it has none.
fn open(sheets: &mut Sheets, place: &Place, id: CommandId) -> Result<(), NoMemory>
    ensures { OnOk result (OpensSheet place.now.topology place.now.site sheets.old sheets.new id) }
{
    if !sheets.contains_key(&id) {
        sheets.insert(id, Sheet::new(&place.topology, place.site))?;
    }
    Ok(())
}

/// Keeps a command in its sheet.
pub(crate) fn keep(sheets: &mut Sheets, place: &Place, command: Command) -> Result<(), NoMemory>
    ensures { OnOk result (let old = sheet_at place.now.topology place.now.site sheets.old command.id
        in ChangesSheet place.now.topology place.now.site sheets.old sheets.new command.id
        (with_sheet (with_command command old.sheet) old)) }
{
    let id = command.id;
    open(sheets, place, id)?;
    if let Some(sheet) = sheets.get_mut(&id) {
        sheet.keep(command);
    }
    Ok(())
}

/// Keeps a command in its sheet, with the own proposal.
pub(crate) fn propose(
    sheets: &mut Sheets,
    place: &Place,
    command: Command,
    stamp: Stamp,
) -> Result<(), NoMemory>
    ensures { OnOk result (let old = sheet_at place.now.topology place.now.site sheets.old command.id
        in ChangesSheet place.now.topology place.now.site sheets.old sheets.new command.id
        (with_sheet (with_proposal stamp.0 Made.Proposal (with_command command old.sheet)) old)) }
{
    let id = command.id;
    open(sheets, place, id)?;
    if let Some(sheet) = sheets.get_mut(&id) {
        sheet.keep(command);
        sheet.propose(stamp, Made::Proposal);
    }
    Ok(())
}

/// Keeps a command in its sheet, with the own proposal, acknowledged at its home.
pub(crate) fn submit(
    sheets: &mut Sheets,
    place: &Place,
    command: Command,
    stamp: Stamp,
) -> Result<(), NoMemory>
    ensures { OnOk result (let old = sheet_at place.now.topology place.now.site sheets.old command.id
        in ChangesSheet place.now.topology place.now.site sheets.old sheets.new command.id
        (with_own_ack stamp.0 (with_sheet (with_proposal stamp.0 Made.Proposal
        (with_command command old.sheet)) old))) }
{
    let id = command.id;
    open(sheets, place, id)?;
    if let Some(sheet) = sheets.get_mut(&id) {
        sheet.keep(command);
        sheet.propose(stamp, Made::Proposal);
        sheet.acknowledge_own(stamp);
    }
    Ok(())
}

/// Takes a rank's proposal, and gives the fast quorum's choice where it is whole with it.
pub(crate) fn acknowledge(
    sheets: &mut Sheets,
    place: &Place,
    id: CommandId,
    rank: Rank,
    stamp: Stamp,
) -> Option<FastChoice>
    ensures choice { result ≡ choice_after_ack rank.0 stamp.0
        (sheet_at place.now.topology place.now.site sheets.old id) }
    ensures changed { ChangesSheet place.now.topology place.now.site sheets.old sheets.new id
        (with_acknowledgement rank.0 stamp.0 (sheet_at place.now.topology place.now.site sheets.old id)) }
{
    match sheets.get_mut(&id) {
        Some(sheet) => sheet.acknowledge(rank, stamp),
        None => None,
    }
}

/// Accepts a stamp for a command at a ballot, where it can be, and tells whether it did.
pub(crate) fn accept(
    sheets: &mut Sheets,
    place: &Place,
    id: CommandId,
    stamp: Stamp,
    ballot: u64,
) -> Result<bool, NoMemory>
    ensures accepts { IfOk result (λ accepted. let kept = sheet_at place.now.topology place.now.site sheets.old id
        in accepted ≡ can_accept kept.site.partition.0 ballot kept.sheet) }
    ensures changed { OnOk result (ChangesSheet place.now.topology place.now.site sheets.old sheets.new id
        (with_acceptance stamp.0 ballot (sheet_at place.now.topology place.now.site sheets.old id))) }
{
    open(sheets, place, id)?;
    match sheets.get_mut(&id) {
        Some(sheet) => Ok(sheet.accept(stamp, ballot)),
        None => Ok(false),
    }
}

/// Takes a rank's vote at a ballot, and gives the stamp that is decided with it.
pub(crate) fn vote(
    sheets: &mut Sheets,
    place: &Place,
    id: CommandId,
    rank: Rank,
    ballot: u64,
) -> Option<Stamp>
    ensures decision { option_map (λ t. t.0) result
        ≡ decision_after_vote rank.0 ballot (sheet_at place.now.topology place.now.site sheets.old id) }
    ensures changed { ChangesSheet place.now.topology place.now.site sheets.old sheets.new id
        (with_vote_of rank.0 ballot (sheet_at place.now.topology place.now.site sheets.old id)) }
{
    match sheets.get_mut(&id) {
        Some(sheet) => sheet.vote(rank, ballot),
        None => None,
    }
}

/// The stamp of a partition, where it is known.
pub(crate) fn stamp_at(
    sheets: &Sheets,
    place: &Place,
    id: CommandId,
    partition: PartitionId,
) -> Option<Stamp>
    ensures { option_map (λ t. t.0) result ≡ stamp_of
        (sheet_at place.now.topology place.now.site sheets.now id).sheet partition.0 }
{
    match sheets.get(&id) {
        Some(sheet) => sheet.stamp(partition),
        None => None,
    }
}

/// Agrees to a ballot for a command, where none as great was agreed to, and gives what is told to
/// its recovery.
pub(crate) fn promise(
    sheets: &mut Sheets,
    place: &Place,
    id: CommandId,
    ballot: u64,
) -> Result<Option<RecoveryAnswer>, NoMemory>
    ensures answer { IfOk result (λ told. told ≡ promise_by ballot
        (sheet_at place.now.topology place.now.site sheets.old id)) }
    ensures changed { OnOk result (ChangesSheet place.now.topology place.now.site sheets.old sheets.new id
        (with_promise ballot (sheet_at place.now.topology place.now.site sheets.old id))) }
{
    open(sheets, place, id)?;
    match sheets.get_mut(&id) {
        Some(sheet) => Ok(sheet.promise(ballot)),
        None => Ok(None),
    }
}

/// Keeps a command in its sheet, with a proposal that a recovery makes, and agrees to its ballot.
pub(crate) fn propose_for_recovery(
    sheets: &mut Sheets,
    place: &Place,
    command: Command,
    ballot: u64,
    stamp: Stamp,
) -> Result<Option<RecoveryAnswer>, NoMemory>
    ensures answer { IfOk result (λ told. let old = sheet_at place.now.topology place.now.site sheets.old command.id
        in told ≡ promise_by ballot (with_sheet (with_proposal stamp.0 Made.Recovery
        (with_command command old.sheet)) old)) }
    ensures changed { OnOk result (let old = sheet_at place.now.topology place.now.site sheets.old command.id
        in ChangesSheet place.now.topology place.now.site sheets.old sheets.new command.id
        (with_promise ballot (with_sheet (with_proposal stamp.0 Made.Recovery (with_command command old.sheet)) old))) }
{
    let id = command.id;
    open(sheets, place, id)?;
    match sheets.get_mut(&id) {
        Some(sheet) => {
            sheet.keep(command);
            sheet.propose(stamp, Made::Recovery);
            Ok(sheet.promise(ballot))
        }
        None => Ok(None),
    }
}

/// Tries the next ballot for a command, where it can be recovered, and gives it.
pub(crate) fn recover(sheets: &mut Sheets, place: &Place, id: CommandId) -> Option<u64>
    ensures ballot { result ≡ ballot_by (sheet_at place.now.topology place.now.site sheets.old id) }
    ensures changed { ChangesSheet place.now.topology place.now.site sheets.old sheets.new id
        (with_try (sheet_at place.now.topology place.now.site sheets.old id)) }
{
    match sheets.get_mut(&id) {
        Some(sheet) => sheet.recover(),
        None => None,
    }
}

/// Takes a rank's answer at a ballot, and gives the stamp that is put to the vote with it.
pub(crate) fn answer(
    sheets: &mut Sheets,
    place: &Place,
    id: CommandId,
    answer: RecoveryAnswer,
    ballot: u64,
) -> Option<Stamp>
    ensures choice { option_map (λ t. t.0) result ≡ choice_after_answer answer ballot
        (sheet_at place.now.topology place.now.site sheets.old id) }
    ensures changed { ChangesSheet place.now.topology place.now.site sheets.old sheets.new id
        (with_answer_of answer ballot (sheet_at place.now.topology place.now.site sheets.old id)) }
{
    match sheets.get_mut(&id) {
        Some(sheet) => sheet.answer(answer, ballot),
        None => None,
    }
}

/// Learns the stamp of a partition, and gives the final stamp where it is known with it.
pub(crate) fn learn(
    sheets: &mut Sheets,
    place: &Place,
    id: CommandId,
    partition: PartitionId,
    stamp: Stamp,
) -> Result<Option<Stamp>, NoMemory>
    requires some { 1 ≤ partition.0 }
    requires few { partition.0 ≤ 4 }
    ensures last { IfOk result (λ last. option_map (λ t. t.0) last
        ≡ final_after_learning partition.0 stamp.0 (sheet_at place.now.topology place.now.site sheets.old id)) }
    ensures changed { OnOk result (ChangesSheet place.now.topology place.now.site sheets.old sheets.new id
        (with_known partition.0 stamp.0 (sheet_at place.now.topology place.now.site sheets.old id))) }
{
    open(sheets, place, id)?;
    match sheets.get_mut(&id) {
        Some(sheet) => Ok(sheet.learn(partition, stamp)),
        None => Ok(None),
    }
}
