// The numbers of the two formats and of the lent buffers, each under its name. The definitions have the same numbers (`specs/Layout.antt`).
// A constant is of one type: a number of 16 bits is compared with a literal where its limit is a `usize` here.
#![tactic(auto)]

ghost use Rattle.std.specs.Prelude.{◌≡◌, ◌<◌};
ghost use Rattle.layout.specs.Layout.{most_beads, most_states, next_at};

// ---- limits

pub const MOST_LABELS: usize = 16;

pub const MOST_BEADS: usize = 8;

pub const MOST_STATES: usize = 16;

pub const MOST_STEPS: usize = 1024;

pub const MOST_LINKS: usize = 4096;

// Links in one line.
pub const MOST_PREDS: usize = 8;

pub const MOST_BOARD: u16 = 255;

// Bytes of a text, of a line without its newline, of a label's name.
pub const MOST_PATTERN_TEXT: usize = 16384;

pub const MOST_LOG_TEXT: usize = 65535;

pub const MOST_LINE: usize = 240;

pub const MOST_NAME: usize = 12;

// The largest number that a text may have, as the type in which a number is read.
pub const MOST_NUMBER: u32 = 65535;

// Room for the places of a pattern line's fields, at most 4 and one a label, and for where the line ends.
pub const PATTERN_FIELDS: usize = 24;

// ---- the rules, as the pattern buffer has them

pub const SOME: u16 = 1;

pub const ALL: u16 = 2;

// ---- where the parts of the pattern buffer begin, and its length

pub const RULES: usize = 2;

pub const STATE_COUNTS: usize = 10;

pub const FINAL_SETS: usize = 18;

pub const NEXT_SETS: usize = 26;

pub const PATTERN_LENGTH: usize = 2074;

// Next sets of a bead, and of a state.
pub const SETS_A_BEAD: usize = 256;

pub const SETS_A_STATE: usize = 16;

// States of all beads, there or not.
pub const ALL_STATES: usize = 128;

// Where the next sets of a state begin, one a label.
pub fn next_sets_at(bead: usize, state: usize) -> usize
    requires { (bead < most_beads) × (state < most_states) }
    ensures { result ≡ next_at bead state 0 }
{
    NEXT_SETS + SETS_A_BEAD * bead + SETS_A_STATE * state
}

// ---- where the parts of the log buffer begin, and its length

pub const LABEL_SETS: usize = 1;

pub const BOARDS: usize = 1025;

pub const BEGINS: usize = 2049;

pub const LINKS: usize = 3074;

pub const LOG_LENGTH: usize = 7170;

// ---- the judge's buffers

pub const RESULT_LENGTH: usize = 10240;

pub const ROW_LENGTH: usize = 10;

pub const WORK_LENGTH: usize = 16384;

// Places of the pivots: for each bead and one more, a place a step.
pub const PIVOT_PLACES: usize = 9216;

// Lanes of a pass. The set of the lanes in a state is one number of 16 bits.
pub const MOST_LANES: u16 = 16;

// Members that such a number has room for, whatever the set is of.
pub const SET_WIDTH: usize = 16;
