// Judging a data set of at most 65,536 bytes with its own row buffer, for the programs that judge.
#![tactic(auto)]

ghost use Rattle.std.specs.Prelude.{◌≡◌, ◌≤◌, length};
ghost use Rattle.node.specs.Nodes.{nodes_of};
ghost use Rattle.judge_small.specs.Printed.{judge_printed};
ghost use Rattle.judge_small.specs.Internal.{broken_at};
ghost use Rattle.judge_small.specs.Located.{item_row, located_printed};

use conformance::Outcome;
use dataset::ReadError;
use node::DataSet;
use room::row_buffer;

// The judge's answer and, if a broken rule names a frame, the number of the row of that frame's item, counted from 1; otherwise 0.
#[derive(Clone, Copy)]
pub struct Located {
    pub answer: Result<Outcome, ReadError>,
    pub row: usize,
}

// What the judge answers; never code 8.
pub fn judge_small(bytes: &[u8]) -> Result<Outcome, ReadError>
    requires { length bytes.now ≤ 65536 }
    ensures { result ≡ judge_printed bytes.now }
{
    let mut rows = row_buffer();
    conformance::judge(bytes, &mut rows)
}

// The row of the item of a frame that a broken rule names; there is no item 0.
fn item_row(set: &DataSet, frame: usize) -> usize
    ensures { result ≡ item_row (nodes_of set.now) frame }
{
    match steps::item_at(set, frame) {
        Some(i) => i + 1,
        None => 0,
    }
}

// The answer that a rule is broken, with the row of the frame's item.
fn broken_at(set: &DataSet, count: usize, rule: usize, frame: usize) -> Located
    ensures { result ≡ broken_at (nodes_of set.now) count rule frame }
{
    let row = item_row(set, frame);
    Located {
        answer: Ok(Outcome::Broken(count, rule, frame)),
        row,
    }
}

// What the judge answers, and the row that it is about.
#[tactic(auto, using(crate::proofs::Places::breaking))]
pub fn judge_located(bytes: &[u8]) -> Located
    requires { length bytes.now ≤ 65536 }
    ensures { result ≡ located_printed bytes.now }
{
    let mut rows = row_buffer();
    let answer = conformance::judge(bytes, &mut rows);
    match answer {
        Ok(Outcome::Broken(count, rule, frame)) => {
            let set = DataSet::new(bytes, &rows[..dataset::WIDTH * count]);
            broken_at(&set, count, rule, frame)
        }
        // Two arms and not one of two patterns, which does not say in a proof which of them the answer is.
        Ok(Outcome::Accepted(_)) => Located { answer, row: 0 },
        Err(_) => Located { answer, row: 0 },
    }
}
