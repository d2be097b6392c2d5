// Dockets: the lines of a proof as bytes.
#![tactic(auto)]

mod card;
mod cursor;
mod cutting;
mod decoding;
mod fault;
mod format;
mod kind;
mod line;
mod parts;

pub use card::card_at;
pub use cutting::part;
pub use decoding::decode;
pub use fault::{LineFault, LineRule};
pub use format::{decoding_undoes_encoding, encoding_undoes_decoding, every_place_has_one_outcome};
pub use line::Line;
pub use parts::Part;
