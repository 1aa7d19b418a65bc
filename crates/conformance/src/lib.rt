// The judge: reads a data set afresh, and finds the first broken rule and the lowest frame that breaks it.
#![tactic(auto)]

ghost use Rattle.std.specs.Prelude.{◌≡◌, ◌+◌, ◌-◌, ◌*◌, ◌≤◌, ◌<◌, true, false, length, drop};
ghost use Rattle.value.specs.Number.{integer_limit, number_or0};
ghost use Rattle.dataset.specs.Reading.{reading_of};
ghost use Rattle.basics.specs.Fields.{Answers};
ghost use Rattle.dataset.specs.Answer.{buffer_of};
ghost use Rattle.value.specs.Internal.{Below};
ghost use Rattle.verdict.specs.Verdict.{last_rule, per_frame};
ghost use Rattle.node.specs.Nodes.{nodes_of};
ghost use Rattle.element.specs.Frames.{frames_of, shared_item, frame_items};
ghost use Rattle.element.specs.Internal.{Along};
ghost use Rattle.rules.specs.All.{rule_at};
ghost use Rattle.conformance.specs.Judging.{first_frame, finding_of, judge_of, accept_of, verdict_of, fields_of};
ghost use Rattle.conformance.specs.declared.NotAccepted.TheVariants.{Unread};
ghost use Rattle.conformance.specs.Internal.{no_part, part_for, Asked, end_frame};

use dataset::ReadError;
use element::Items;
use node::DataSet;
use rules_frame::SharedPart;
use verdict::Verdict;

// The number after that of the last rule.
const END_RULE: usize = verdict::LAST_RULE + 1;

// The result of the rules: all hold, or the first broken one and its lowest frame. No Option, since the theorems here and in the crates
// above say by these names what they are about.
#[derive(Clone, Copy)]
pub enum Finding {
    Accepted,
    Broken(usize, usize),
}

// What judging a data set came to, with its number of rows: accepted, or the rule that is broken and the frame.
#[derive(Clone, Copy)]
pub enum Outcome {
    Accepted(usize),
    Broken(usize, usize, usize),
}

// Why a data set is not accepted: it cannot be read; or a rule is broken, with the number of rows, the rule and the frame.
#[derive(Clone, Copy)]
pub enum NotAccepted {
    Unread(ReadError),
    Broken(usize, usize, usize),
}

impl From<ReadError> for NotAccepted {
    ghost from_gives = { λ error refusal. refusal ≡ Unread error };

    fn from(error: ReadError) -> NotAccepted {
        NotAccepted::Unread(error)
    }
}

// The part of a rule that asks nothing of the shared item.
const NO_PART: SharedPart = SharedPart::Holds(true);

// The part of a per-frame rule in the shared item, worked out once for the rule. Any other rule asks nothing there.
fn part_for(set: &DataSet, rule: usize, shared: Option<usize>) -> SharedPart
    requires { Below (length (nodes_of set.now)) shared }
    ensures { result ≡ part_for (nodes_of set.now) rule shared }
{
    match shared {
        Some(s) if verdict::is_per_frame(rule) => rules_frame::shared_part(set, rule, s),
        _ => NO_PART,
    }
}

// A rule that is asked once.
fn once_holds(set: &DataSet, rule: usize) -> bool
    requires { (1 ≤ rule) × ((rule ≤ last_rule) × (per_frame rule ≡ false)) }
    ensures { result ≡ rule_at (nodes_of set.now) rule 0 }
{
    match rule {
        ..=26 => rules_root::root_rule(set, rule),
        27..=36 => rules_mask::mask_rule(set, rule),
        _ => rules_root::rule_38(set),
    }
}

// A rule at a frame: frame 0 for a rule that is asked once; otherwise the items from the frame's own on, of which the first is the
// frame's.
fn rule_holds(
    set: &DataSet,
    rule: usize,
    shared: Option<usize>,
    part: SharedPart,
    items: Items,
    frame: usize,
) -> bool
    requires { Below (length (nodes_of set.now)) shared
        × ((shared ≡ shared_item (nodes_of set.now))
        × ((part ≡ part_for (nodes_of set.now) rule shared) × Asked (nodes_of set.now) rule frame items)) }
    ensures { result ≡ rule_at (nodes_of set.now) rule frame }
{
    if !verdict::is_per_frame(rule) {
        return once_holds(set, rule);
    }
    let Some(s) = shared else {
        return false;
    };
    items.at < items.end && rules_frame::item_rule(set, rule, s, part, items.at)
}

// Number of Frames, or 0.
fn frame_total(set: &DataSet) -> usize
    ensures { (result ≡ number_or0 (frames_of (nodes_of set.now))) × (result < integer_limit) }
{
    value::number_or_0(element::frame_count(set))
}

// The frames at which a rule is asked: the first, and the one after the last.
fn first_frame(rule: usize) -> usize
    ensures { result ≡ first_frame rule }
{
    if verdict::is_per_frame(rule) { 1 } else { 0 }
}

fn end_frame(rule: usize, n: usize) -> usize
    requires { n < integer_limit }
    ensures { (result ≡ end_frame n rule) × (result ≤ integer_limit) }
{
    if verdict::is_per_frame(rule) {
        n + 1
    } else {
        1
    }
}

// The first broken rule, and at that rule the lowest frame.
fn first_broken(set: &DataSet) -> Finding
    ensures { result ≡ finding_of (nodes_of set.now) }
{
    let n = frame_total(set);
    let shared = element::shared_item(set);
    let items = element::frame_items(set);
    // Two loops left by a label are the form that docs/DECISIONS.md gives for the paper's words.
    let found = 'judge: loop {
        for rule in 1..END_RULE {
            let part = part_for(set, rule, shared);
            let first = first_frame(rule);
            let end = end_frame(rule, n);
            let mut left = items;
            for frame in first..end {
                if rule_holds(set, rule, shared, part, left, frame) {
                    left = element::advance(set, left);
                } else {
                    break 'judge Finding::Broken(rule, frame);
                }
            }
        }
        break Finding::Accepted;
    };
    found
}

// Reads the data set and judges it.
#[tactic(auto, using(basics::proofs::Promised::promised), unfolding(crate::specs::Judging::judge_of))]
pub fn judge(bytes: &[u8], rows: &mut [u32]) -> Result<Outcome, ReadError>
    ensures answers { Answers fields_of result (judge_of bytes.now rows.old) }
    ensures rows_after { rows.new ≡ buffer_of (reading_of bytes.now) rows.old }
{
    let n = dataset::read(bytes, rows)?;
    let set = DataSet::new(bytes, &rows[..dataset::WIDTH * n]);
    Ok(match first_broken(&set) {
        Finding::Accepted => Outcome::Accepted(n),
        Finding::Broken(rule, frame) => Outcome::Broken(n, rule, frame),
    })
}

// The same for calls that need an accepted data set: its number of rows.
pub fn accept(bytes: &[u8], rows: &mut [u32]) -> Result<usize, NotAccepted>
    ensures value { result ≡ accept_of bytes.now rows.old }
    ensures rows_after { rows.new ≡ buffer_of (reading_of bytes.now) rows.old }
{
    match judge(bytes, rows)? {
        Outcome::Accepted(n) => Ok(n),
        Outcome::Broken(n, rule, frame) => Err(NotAccepted::Broken(n, rule, frame)),
    }
}

// The verdict of an answer, with its row count. A function and no `From`, since the crates above call it by this name.
pub fn verdict_of(answer: Result<Outcome, ReadError>) -> Verdict
    ensures { result ≡ verdict_of answer }
{
    let (code, rule, frame, offset, rows) = match answer {
        Ok(Outcome::Accepted(n)) => (0, 0, 0, 0, n),
        Ok(Outcome::Broken(n, rule, frame)) => (9, rule, frame, 0, n),
        Err(ReadError::Refused(refusal)) => (refusal.fault.code(), 0, 0, refusal.offset, 0),
        Err(ReadError::TooLarge) => (7, 0, 0, 0, 0),
        Err(ReadError::NoRoom) => (8, 0, 0, 0, 0),
    };
    Verdict {
        code,
        rule,
        frame,
        offset,
        rows: Some(rows),
    }
}
