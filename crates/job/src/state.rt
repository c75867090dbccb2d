// The states of a job, and what it answers on accepting a flow.

#[derive(Clone, Copy, Debug, PartialEq, Eq)]
pub enum State {
    Empty,
    Open,
    Accepted,
}

// What is answered when a flow is accepted: its value, and how many arcs carry flow.
#[derive(Clone, Copy, Debug, PartialEq, Eq)]
pub struct Acceptance {
    pub value: u32,
    pub arcs: u32,
}
