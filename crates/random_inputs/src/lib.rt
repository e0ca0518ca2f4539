// Random patterns and logs, for trials. Their rooms are read and built place by place, each read and write total, with noise to fill a
// room; sets of the numbers below 16. Drawn are patterns, logs, and logs made from a log: with the past of a step kept, with links and
// labels added, and with a first label on bare steps. And one number of a room is changed.
#![tactic(auto)]

mod additions;
mod below;
mod changes;
mod labels;
mod links;
mod log_room;
mod logs;
mod merging;
mod noise;
mod past;
mod pattern_room;
mod patterns;
mod sets;

pub use additions::{add_everywhere, label_bare};
pub use below::{any_below, one_below, reduced};
pub use changes::add_power;
pub use labels::Labels;
pub use links::Links;
pub use log_room::LogRoom;
pub use logs::{Shape, draw_log, draw_step, redraw_log};
pub use noise::fill_noise;
pub use past::{Past, change_beyond, past_of};
pub use pattern_room::{PatternRoom, Rule};
pub use patterns::{draw_pattern, redraw_pattern};
pub use sets::{has, only};
