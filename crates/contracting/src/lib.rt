// The reaches of a network that stay when its components are contracted (document 02, item 4), with their new ends, written into lent rows.
// The functions with a `requires` are for the crates above, which have checked it.

#![tactic(auto)]

ghost use Rattle.std.specs.Prelude.{◌≡◌};
ghost use Rattle.network.specs.Tables.{state_of};
ghost use Rattle.contracting.specs.Filling.{stays_by, note_after, Fillable, KeptFilled};

use components::Note;
use tables::{KIND_FLAP, KIND_GATED, KIND_TWO_WAY};

// Whether a reach of the kind stays. Its ends are in the components c and d; c has the note.
fn stays(kind: u8, c: u16, d: u16, note: Note) -> bool
    ensures { result ≡ stays_by (state_of kind) c d note }
{
    if kind == KIND_GATED {
        return true;
    }
    if kind == KIND_FLAP {
        return c != d || note == Note::One;
    }
    kind == KIND_TWO_WAY && note != Note::Looped
}

// The note of a component after a reach of the kind with its end A there.
fn note_after(kind: u8, note: Note) -> Note
    ensures { result ≡ note_after (state_of kind) note }
{
    match note {
        Note::Several if kind == KIND_TWO_WAY => Note::Looped,
        _ => note,
    }
}

// Writes what stays of each reach to the front of the new rows, in reach order, and returns how many stay.
pub fn fill_kept(
    kinds: &[u8],
    a: &[u16],
    b: &[u16],
    labels: &[u16],
    notes: &mut [Note],
    kinds2: &mut [u8],
    a2: &mut [u16],
    b2: &mut [u16],
) -> usize
    requires { Fillable kinds.now a.now b.now labels.now notes.old kinds2.old a2.old b2.old }
    ensures { KeptFilled kinds.now a.now b.now labels.now notes.old
        kinds2.old a2.old b2.old result kinds2.new a2.new b2.new }
{
    let mut k = 0;
    for (i, &kind) in kinds.iter().enumerate() {
        let x = a[i];
        let y = b[i];
        let c = labels[x as usize];
        let d = labels[y as usize];
        let note = notes[c as usize];
        notes[c as usize] = note_after(kind, note);
        if !stays(kind, c, d, note) {
            continue;
        }
        kinds2[k] = kind;
        a2[k] = c;
        b2[k] = d;
        k += 1;
    }
    k
}
