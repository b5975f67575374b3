// What is written at the end of the input.
ghost use Rattle.std.specs.Prelude.{◌≡◌, ◌-◌, ◌≤◌, length};
ghost use Rattle.std.proofs.lemmas.List.Edits.{sets};
ghost use Rattle.session.specs.Feeding.{closed_in, fed_told, with_more};
ghost use Rattle.session.specs.declared.state.Wanted.TheVariants.{Outcomes};

use printing::put_outcomes;
use session::{Fed, Session, Stage, Wanted};

// Behind what was written for lines.
pub fn close(wanted: Wanted, fed: Fed, out: &mut [u8]) -> Fed
    requires { fed.written ≤ length out.old }
    ensures more { fed_told result ≡
        with_more (fed_told fed) (length (closed_in wanted (length out.old - fed.written) fed.session)) }
    ensures out_left { out.new ≡
        sets out.old fed.written (closed_in wanted (length out.old - fed.written) fed.session) }
{
    let more = put_closing(wanted, fed.session, &mut out[fed.written..]);
    Fed {
        written: fed.written + more,
        ..fed
    }
}

fn put_closing(wanted: Wanted, session: Session, rest: &mut [u8]) -> usize
    ensures put { result ≡ length (closed_in wanted (length rest.old) session) }
    ensures left { rest.new ≡ sets rest.old 0 (closed_in wanted (length rest.old) session) }
{
    match wanted {
        Wanted::Outcomes => put_left(session, rest),
        Wanted::Answers | Wanted::Pictures => 0,
    }
}

// The outcomes of the state that the run has left, where it has one.
fn put_left(session: Session, rest: &mut [u8]) -> usize
    ensures put { result ≡ length (closed_in Outcomes (length rest.old) session) }
    ensures left { rest.new ≡ sets rest.old 0 (closed_in Outcomes (length rest.old) session) }
{
    match session.stage {
        Stage::Awaiting => 0,
        Stage::Running | Stage::Ended => put_outcomes(session.bus, rest),
    }
}
