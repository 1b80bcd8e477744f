// Nobody, as a member.
use crate::Member;
use sets::Blank;

// What stands at a place that holds no member.
impl Blank for Member {
    ghost blank = { record { n = 0; t = 0; id = 0; round = 0; estimate = 0; decided = 0; silent = 0 } };

    fn blank() -> Member {
        Member {
            n: 0,
            t: 0,
            id: 0,
            round: 0,
            estimate: 0,
            decided: 0,
            silent: 0,
        }
    }
}
