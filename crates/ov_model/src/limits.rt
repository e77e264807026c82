//! The numbers of the wire and of a session, for code: each is the one of specs/Limits, which clauses cite.

/// How many peers a session may make.
pub const MOST_PEERS: u32 = 4096;

/// How many keys a session may make.
pub const MOST_KEYS: u32 = 65536;

/// The bytes of a data packet's head.
pub const HEAD_BYTES: usize = 8;

/// The bytes of a tag.
pub const TAG_BYTES: usize = 16;

/// The bytes of a data packet before its ciphertext: the head, and the tag behind it.
pub const OVERHEAD: usize = HEAD_BYTES + TAG_BYTES;

/// The bytes of a datagram below which its first byte isn't looked at.
pub const SHORTEST_DATAGRAM: usize = 4;

/// The opcode of a data packet of the first version, which names no peer.
pub const DATA_V1: u8 = 6;

/// The opcode of a data packet of the second version.
pub const DATA_V2: u8 = 9;

/// The number of key ids. The first byte of a datagram is its opcode times this, and its key id.
pub const KEY_IDS: u8 = 8;

/// How far below the greatest accepted packet id one may still come.
pub const WINDOW_PLACES: u32 = 2048;

/// After so many seconds without an accept all earlier packet ids are too old.
pub const QUIET_SECONDS: u32 = 30;

/// The number of replay shards. A key stands in the shard of its serial's remainder.
pub const SHARDS: u32 = 8;
