//! The command `keys` over the patterns of a stream, each of which ends in NUL.

mod held_piece;
mod runs;

pub use runs::write_stream_keys;
