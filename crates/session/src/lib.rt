// The session: its record, which records a session can have, opening, and the report of what became of a forward.
#![tactic(auto)]

ghost use Rattle.std.specs.Prelude.{◌≡◌};
ghost use Rattle.session.specs.Session.{possible, with_state, forwarded_to, goes as goes_in, stays as stays_with, Opens, Reports};

// Five numbers: case 0..3; state 0 ready, 1 waiting, 2 finished, 3 released, 4 ended; forwarded 1 if anything was, else 0; the
// last priority; that criterion's default handling.
#[repr(C)]
#[derive(Clone, Copy)]
pub struct Session {
    pub case: u32,
    pub state: u32,
    pub forwarded: u32,
    pub last: u32,
    pub handling: u32,
}

// The refusal number (0 if none), and the session.
#[derive(Clone, Copy)]
pub struct Opened {
    pub refusal: u32,
    pub session: Session,
}

// The refusal number (0 if none), and the session.
#[derive(Clone, Copy)]
pub struct Reported {
    pub refusal: u32,
    pub session: Session,
}

// "A record that no session can have is refused with 10."
#[tactic(auto, unfolding(crate::specs::Session::possible))]
pub fn can_be(x: Session) -> bool
    ensures { result ≡ possible x }
{
    if 3 < x.case {
        return false;
    }
    match x.forwarded {
        0 => x.last == 0 && x.handling == 0 && (x.state == 0 || x.state == 2),
        1 => x.handling <= 1 && x.state <= 4 && (x.state != 3 || x.handling == 1),
        _ => false,
    }
}

#[tactic(auto, unfolding(crate::specs::Session::open_session))]
pub fn open(wanted: u32) -> Opened
    ensures { Opens wanted result }
{
    let fresh = Session {
        case: wanted,
        state: 0,
        forwarded: 0,
        last: 0,
        handling: 0,
    };
    if wanted <= 3 {
        return Opened {
            refusal: 0,
            session: fresh,
        };
    }
    Opened {
        refusal: 8,
        session: Session {
            case: 0,
            state: 2,
            ..fresh
        },
    }
}

// Only the state changes.
pub fn in_state(x: Session, state: u32) -> Session
    ensures { result ≡ with_state x state }
{
    Session { state, ..x }
}

// Waiting for a criterion's server: its priority and default are kept.
pub fn forwarded_to(x: Session, priority: u32, handling: u32) -> Session
    ensures { result ≡ forwarded_to x priority handling }
{
    Session {
        state: 1,
        forwarded: 1,
        last: priority,
        handling,
        ..x
    }
}

// A refusal leaves the session as it came.
fn stays(x: Session, refusal: u32) -> Reported
    ensures { result ≡ stays_with x refusal }
{
    Reported {
        refusal,
        session: x,
    }
}

// The session goes on in this state.
fn goes(x: Session, state: u32) -> Reported
    ensures { result ≡ goes_in x state }
{
    Reported {
        refusal: 0,
        session: in_state(x, state),
    }
}

#[tactic(auto, unfolding(crate::specs::Session::report_session))]
pub fn report(x: Session, news: u32) -> Reported
    ensures { Reports x news result }
{
    // Two tests, not one: where the state is known first, a session that does not wait is refused for the least.
    if x.state != 1 {
        return stays(x, 10);
    }
    if !can_be(x) {
        return stays(x, 10);
    }
    match news {
        0 => goes(x, 0),
        1 if x.handling == 0 => goes(x, 0),
        1 => goes(x, 3),
        2 => goes(x, 4),
        _ => stays(x, 8),
    }
}
