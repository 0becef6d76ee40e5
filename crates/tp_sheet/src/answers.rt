ghost use Rattle.std.specs.Prelude.{◌≡◌, ◌≤◌, length, take};
ghost use Rattle.tp_quorum.specs.Choice.{present};

use tp_base::{Made, Rank, Stamp};
use tp_choice::RecoveryAnswer;

/// What stands in a list of answers where there is none.
pub const NO_ANSWER: RecoveryAnswer = RecoveryAnswer {
    rank: Rank(0),
    stamp: Stamp(0),
    made: Made::Proposal,
    accepted: 0,
};

/// Lists the answers that a table keeps, and tells how many there are.
pub fn gather(table: &[Option<RecoveryAnswer>], gathered: &mut [RecoveryAnswer; 7]) -> usize
    requires { length table.now ≤ 7 }
    ensures count { result ≡ length (present table.now) }
    ensures gathered { take result gathered.new ≡ present table.now }
    ensures room { result ≤ 7 }
{
    let mut count = 0;
    for answer in table {
        match answer {
            Some(answer) => {
                gathered[count] = *answer;
                count += 1;
            }
            None => {}
        }
    }
    count
}
