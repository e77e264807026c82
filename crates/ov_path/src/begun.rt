// How a line begins.

ghost use Rattle.std.specs.Prelude.{◌≡◌};
ghost use Rattle.ov_model.specs.Path.{begins, begins_netlink, begins_tx, begins_rx};
ghost use Rattle.ov_model.specs.Checked.{checked};
ghost use Rattle.ov_model.specs.Packets.{inner_of, head_of};
ghost use Rattle.ov_model.specs.declared.line.Deed.TheVariants as deed;
ghost use Rattle.ov_path.specs.Parts.{begin_told, LooksOnly};

use crate::desk::Desk;
use crate::stage::Purpose;
use ov_base::{Addr, Transport};
use ov_model::{Act, Answer, Command, Deed, DropCause, NlMessage, Reply};
use ov_nl::call_of;
use ov_packet::{HeadStop, InnerFacts, inner, read_head};

/// A line is answered without a step, or begins with a step of the peer table.
#[derive(Drop)]
pub enum Begun {
    AtOnce(Answer),
    Command(Command),
    /// A look-up, and what its hold is for.
    Look(Act, Purpose),
}

/// How a line begins at a desk: a netlink message with the command that the attribute checks make of it, a
/// packet to be sent with the look-up of its next hop, a datagram with the look-up by its head, a tick and a
/// down with their commands, a lost transport with the removal of its peer.
pub fn begin_of<D: Desk>(desk: &D, deed: &Deed) -> Begun
    ensures look { LooksOnly deed.now result }
    ensures begins { begin_told result ≡ begins (D.view desk.now).via deed.now }
{
    match deed {
        Deed::Netlink(message) => begin_netlink(message.get()),
        Deed::Tx(packet) => begin_tx(desk, packet.as_slice()),
        Deed::Rx { from, datagram } => begin_rx(*from, datagram.as_slice()),
        Deed::Tick => Begun::Command(Command::Tick),
        Deed::Down => Begun::Command(Command::Down),
        Deed::Lost { id, reason } => Begun::Command(Command::Remove(*id, *reason)),
    }
}

fn begin_netlink(message: &NlMessage) -> Begun
    ensures look { LooksOnly (deed.Netlink message.now) result }
    ensures begins { begin_told result ≡ begins_netlink (checked message.now) }
{
    match call_of(message) {
        Ok(command) => Begun::Command(command),
        Err(errno) => Begun::AtOnce(Answer::Reply(Reply::Refused(errno))),
    }
}

fn begin_tx<D: Desk>(desk: &D, packet: &[u8]) -> Begun
    ensures look { LooksOnly (deed.Tx packet.now) result }
    ensures begins { begin_told result ≡ begins_tx (D.view desk.now).via (inner_of packet.now) }
{
    let destination = match inner(packet) {
        InnerFacts::V4 { destination, .. } => Addr::V4(destination),
        InnerFacts::V6 { destination, .. } => Addr::V6(destination),
        InnerFacts::NotIp => return Begun::AtOnce(Answer::Dropped(DropCause::NotIp)),
    };
    Begun::Look(Act::TxLook(desk.via(destination)), Purpose::Seal)
}

#[tactic(auto, using(crate::proofs::Beginning::begins_data))]
fn begin_rx(from: Transport, datagram: &[u8]) -> Begun
    ensures look { LooksOnly (deed.Rx from datagram.now) result }
    ensures begins { begin_told result ≡ begins_rx from (head_of datagram.now) }
{
    match read_head(datagram) {
        Ok(head) => {
            let act = Act::RxLook {
                id: head.id,
                key_id: head.key_id,
                from,
            };
            Begun::Look(act, Purpose::Open(head.packet_id))
        }
        Err(HeadStop::Short) => Begun::AtOnce(Answer::Dropped(DropCause::Short)),
        Err(HeadStop::DataV1) => Begun::AtOnce(Answer::Dropped(DropCause::DataV1)),
        Err(HeadStop::Control) => Begun::AtOnce(Answer::Control),
    }
}
