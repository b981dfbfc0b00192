// What a cursor comes to, and its answer.
ghost use Rattle.std.specs.Prelude.{◌≡◌};
ghost use Rattle.log_cursor.specs.Stepping.{is_refused};
ghost use Rattle.c_cursor.specs.Next.{next_of, next_found};
ghost use Rattle.c_cursor.specs.Limits.{FoundIn};

use log_cursor::{Cursor, Given, Stepped};

// Steps from a cursor on up to the first that finds something, at most 2,000,002 of them.
pub(crate) fn find(log: &[u8], c: Cursor) -> Stepped
    ensures { result ≡ next_of log.now c }
{
    let mut c = c;
    for _ in 0..2000002u32 {
        let s = log_cursor::step(log, c);
        let Given::Moved = s.found else {
            return s;
        };
        c = s.cursor;
    }
    Stepped {
        found: Given::Moved,
        cursor: c,
    }
}

pub(crate) fn is_refused(f: Given) -> bool
    ensures { result ≡ is_refused f }
{
    matches!(f, Given::Refused(_, _))
}

// What was found in one number.
pub(crate) fn pack(f: Given) -> u64
    requires { FoundIn f }
    ensures { result ≡ next_found f }
{
    match f {
        Given::Act(a) => c_log::pack(0, 0, c_log::act_value(a) as u32),
        Given::Moved => c_log::pack(0, 0, 67108864),
        Given::End => 0,
        Given::Refused(number, place) => c_log::pack(number, place, 0),
    }
}
