// What a call that is given text tells, and what is told of lines taken off it.
use crate::state::Session;

// The session after a call, how many bytes of text are held at its front, and how many bytes were written.
#[derive(Clone, Copy)]
pub struct Fed {
    pub session: Session,
    pub held: usize,
    pub written: usize,
}

// The session after some lines, the bytes of text that they had, and the bytes written.
#[derive(Clone, Copy)]
pub struct TakenLines {
    pub session: Session,
    pub used: usize,
    pub written: usize,
}
