// The components of a network that two-way reaches in service join, and the network with each of them contracted to one basin (document 02, item 4).
// What they are is in specs/; the laws about those definitions are in proofs/. The functions stand in the crates above.

#![tactic(auto)]

// What is noted of a component: it has one member; it has several, and none of its two-way reaches has come yet; the first of them has come.
#[derive(Clone, Copy, PartialEq, Eq)]
pub enum Note {
    One,
    Several,
    Looped,
}
