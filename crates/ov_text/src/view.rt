//! What peer-get shows of a peer, piece by piece, since a dump shows thousands of them.

ghost use Rattle.std.specs.Prelude.{◌≡◌, ◌++◌, OnOk};
ghost use Rattle.std.specs.Net.Text.{ipv4_text};
ghost use Rattle.hex.specs.Hex.{encode_lower};
ghost use Rattle.serde_json.specs.Written.{compact_text};
ghost use Rattle.ov_text.specs.Pieces.{addr_text};
ghost use Rattle.ov_text.specs.Replies as spec;
ghost use Rattle.ov_text.specs.Views as views;

use crate::digits::{append_digits, append_ipv4};
use crate::items::Item;
use crate::pieces::{append, append_number};
use ov_base::{Addr, Memory};
use ov_model::{Counts, PeerView};

/// Puts the counts of the link.
fn append_link_counts(page: &mut Vec<u8>, counts: &Counts) -> Result<(), Memory>
    ensures { OnOk result
        (page.new.items ≡ page.old.items ++ views.link_counts_text counts.now) }
{
    append_number(page, b",\"link-rx-bytes\":", counts.link_rx_bytes)?;
    append_number(page, b",\"link-rx-packets\":", counts.link_rx_packets)?;
    append_number(page, b",\"link-tx-bytes\":", counts.link_tx_bytes)?;
    append_number(page, b",\"link-tx-packets\":", counts.link_tx_packets)?;
    Ok(())
}

/// Puts the counts inside the tunnel.
fn append_vpn_counts(page: &mut Vec<u8>, counts: &Counts) -> Result<(), Memory>
    ensures { OnOk result
        (page.new.items ≡ page.old.items ++ views.vpn_counts_text counts.now) }
{
    append_number(page, b",\"vpn-rx-bytes\":", counts.vpn_rx_bytes)?;
    append_number(page, b",\"vpn-rx-packets\":", counts.vpn_rx_packets)?;
    append_number(page, b",\"vpn-tx-bytes\":", counts.vpn_tx_bytes)?;
    append_number(page, b",\"vpn-tx-packets\":", counts.vpn_tx_packets)?;
    Ok(())
}

/// Puts an IPv4 address behind its name and a quote.
fn append_named_v4(page: &mut Vec<u8>, front: &[u8], octets: [u8; 4]) -> Result<(), Memory>
    ensures text { OnOk result (page.new.items
        ≡ page.old.items ++ views.named_text front.now (ipv4_text octets)) }
    ensures plain { OnOk result (views.IsPlain (ipv4_text octets)) }
{
    append(page, front)?;
    append_ipv4(page, octets)?;
    append(page, b"\"")?;
    Ok(())
}

/// Puts an IPv6 address behind its name and a quote.
fn append_named_v6(page: &mut Vec<u8>, front: &[u8], octets: [u8; 16]) -> Result<(), Memory>
    ensures text { OnOk result (page.new.items
        ≡ page.old.items ++ views.named_text front.now (encode_lower octets)) }
    ensures plain { OnOk result (views.IsPlain (encode_lower octets)) }
{
    append(page, front)?;
    append_digits(page, &octets)?;
    append(page, b"\"")?;
    Ok(())
}

/// Puts the address of a remote transport.
fn append_remote(page: &mut Vec<u8>, addr: Addr) -> Result<(), Memory>
    ensures text { OnOk result
        (page.new.items ≡ page.old.items ++ views.remote_text addr) }
    ensures plain { OnOk result (views.IsPlain (addr_text addr)) }
{
    match addr {
        Addr::V4(octets) => append_named_v4(page, b",\"remote-ipv4\":\"", octets),
        Addr::V6(octets) => append_named_v6(page, b",\"remote-ipv6\":\"", octets),
    }
}

/// Puts the IPv4 address inside the tunnel, where there is one.
fn append_vpn4(page: &mut Vec<u8>, vpn4: Option<[u8; 4]>) -> Result<(), Memory>
    ensures text { OnOk result
        (page.new.items ≡ page.old.items ++ views.vpn4_text vpn4) }
    ensures plain { OnOk result (views.IsPlainIfAny ipv4_text vpn4) }
{
    match vpn4 {
        None => Ok(()),
        Some(octets) => append_named_v4(page, b",\"vpn-ipv4\":\"", octets),
    }
}

/// Puts the IPv6 address inside the tunnel, where there is one.
fn append_vpn6(page: &mut Vec<u8>, vpn6: Option<[u8; 16]>) -> Result<(), Memory>
    ensures text { OnOk result
        (page.new.items ≡ page.old.items ++ views.vpn6_text vpn6) }
    ensures plain { OnOk result (views.IsPlainIfAny encode_lower vpn6) }
{
    match vpn6 {
        None => Ok(()),
        Some(octets) => append_named_v6(page, b",\"vpn-ipv6\":\"", octets),
    }
}

/// Puts what peer-get shows of a peer.
pub(crate) fn append_view(page: &mut Vec<u8>, peer: &PeerView) -> Result<(), Memory>
    ensures { OnOk result
        (page.new.items ≡ page.old.items ++ compact_text (spec.view_data peer.now)) }
{
    append_number(page, b"{\"id\":", peer.id.get() as u64)?;
    append_number(
        page,
        b",\"keepalive-interval\":",
        peer.keepalive.interval as u64,
    )?;
    append_number(
        page,
        b",\"keepalive-timeout\":",
        peer.keepalive.timeout as u64,
    )?;
    append_link_counts(page, &peer.counts)?;
    append_remote(page, peer.remote.addr)?;
    append_number(page, b",\"remote-port\":", peer.remote.port as u64)?;
    append_vpn4(page, peer.vpn4)?;
    append_vpn6(page, peer.vpn6)?;
    append_vpn_counts(page, &peer.counts)?;
    append(page, b"}")?;
    Ok(())
}

impl Item for PeerView {
    ghost json = { spec.view_data };

    fn append_item(&self, page: &mut Vec<u8>) -> Result<(), Memory> {
        append_view(page, self)
    }
}
