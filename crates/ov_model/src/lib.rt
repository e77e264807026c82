//! The plain data of calls, replies, entries and reports, and the definitions that every promise cites.
#![tactic(auto)]

pub mod act;
pub mod answer;
pub mod command;
pub mod draw;
pub mod entry;
pub mod hold;
pub mod ident;
pub mod laws;
pub mod limits;
pub mod line;
pub mod netlink;
pub mod note;
pub mod place;
pub mod replay;
pub mod reply;
pub mod report;
pub mod stand;
pub mod via;

pub use act::{Act, Call, InnerKind};
pub use answer::{Answer, DropCause, PingOut, PingOutcome, SealedOut};
pub use command::{Attrs, Command, Keepalive, KeyConf, KeyDir, Reason, Slot};
pub use draw::Drawn;
pub use entry::Entry;
pub use hold::{Given, Owed};
pub use ident::{KeyId, PeerId};
pub use line::{Deed, Line, Route, Script};
pub use netlink::{Cipher, NlKeyConf, NlKeyDir, NlMessage, NlOp, NlPeer};
pub use note::{Note, NoteBody};
pub use ov_aes::KeyBytes;
pub use place::Place;
pub use replay::{Refusal, ReplayEntry, Verdict};
pub use reply::{Counts, Errno, HoldView, KeyView, PeerView, Reply, Settled};
pub use report::{LaneLog, Report, Unsent};
pub use stand::{Stand, Use};
pub use via::via_of;
