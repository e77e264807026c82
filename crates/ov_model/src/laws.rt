//! What follows from the definitions alone. Each law is the contract of a function that does nothing.

ghost use Rattle.std.specs.Prelude.{List, ◌≡◌, ◌↔◌, ◌==◌, false, Some};
ghost use Rattle.ov_model.specs.declared.entry.Entry.{Entry};
ghost use Rattle.ov_model.specs.Runs.{IsRun, notes_of};
ghost use Rattle.ov_model.specs.Removals.{RemovalsNoted, AllReleased, EachReleasedOnce};
ghost use Rattle.ov_model.specs.Keys.{KeysDiffer};
ghost use Rattle.ov_model.specs.Laws.{OfEveryLegal, OfEveryRouted, SealsUnderHeld, NoncesDiffer, PingsGoToDue, AcceptsOnce};
ghost use Rattle.ov_model.specs.Delivery.{DeliversExactly, DeliversReceived, DeliversOnce};
ghost use Rattle.ov_model.specs.declared.ident.KeyId.{KeyId};
ghost use Rattle.ov_model.specs.declared.ident.PeerId.{PeerId};
ghost use Rattle.ov_model.specs.Ident.{peer_id, key_id};
ghost use Rattle.ov_model.specs.Lifetime.{PeersStayReleased, KeysStayReleased};
ghost use Rattle.ov_model.specs.Tables.{Key};
ghost use Rattle.ov_model.specs.Examples.{WindowExamples, DatagramExamples, InnerExamples, MessageExamples, NewExamples, SetExamples, SlotExamples, DumpExamples, LookExamples, TickExamples, DownExamples, KeepExamples, FloatExamples, IdExamples, ViaExamples, RouteExample};

/// In every run the notes of each removal are those of the removed peers, in order, with the reason,
/// and no peer is removed twice. Each entry that killed a key has exactly one key-swap note, no other entry
/// has one, and no key is killed by two entries. No removed peer and no key that left its slot is left at
/// the end exactly where each of them was let go once.
pub fn removals()
    ensures noted { (journal : List Entry) → IsRun journal →
        RemovalsNoted journal (notes_of journal) }
    ensures released { (journal : List Entry) → IsRun journal →
        AllReleased journal ↔ EachReleasedOnce journal }
{}

/// The nonce law: in every legal report each sealed datagram, of a packet or of a tick's ping, holds the packet
/// of its line or the keepalive message. It was sealed with the key that a look-up of the line held, as the
/// history installed it; its head names the held peer and key, and its nonce is made of its packet id and that
/// key's nonce tail. And where no two keys of the history have the same sealing key and tail, no two sealed
/// datagrams at different places, of whatever lines and lanes, have the same bytes of the key and the same nonce.
/// Each sealed ping is one for the peer that the tick's answer names with it.
pub fn n1()
    ensures sealed { OfEveryLegal SealsUnderHeld }
    ensures differ { OfEveryLegal (λ report. KeysDiffer report.journal → NoncesDiffer report) }
    ensures pings { OfEveryLegal PingsGoToDue }
{}

/// The replay law: in every legal report any two different replay steps that accept differ in their key
/// or in their packet id, whatever shards they stand in: under one key no packet id is accepted twice.
pub fn n2()
    ensures once { OfEveryLegal (λ report. AcceptsOnce report.shards) }
{}

/// The delivery law: in every legal report an answered line that received a datagram is answered with a
/// packet of a peer exactly where its look-up held that peer and a key of it, the tag verifies under this
/// key and this is the packet that it opens to, the line's replay step accepted the datagram's packet id
/// under this key, and the peer with the VPN address that is the next hop of the packet's source, by the
/// script's routes, was this very peer when the packet was settled. No other line is answered so.
pub fn n3()
    ensures delivered { OfEveryRouted DeliversExactly }
    ensures received { OfEveryLegal DeliversReceived }
{}

/// In every legal report any two different lines that are answered with a packet of a received datagram
/// held different keys, or their datagrams differ in the packet id: under one key a datagram is delivered
/// at most once, however often and to whatever lanes it comes.
pub fn delivered_once()
    ensures once { OfEveryLegal DeliversOnce }
{}

/// The lifetime law: in every run, no entry after the one that let a peer go names that peer, neither in
/// its act nor in its reply: the peer isn't held, used, removed, let go or made again, and a look-up of a peer
/// that was due asks for it in vain. The same holds of keys. So it is in every legal report.
pub fn n4()
    ensures peers { (journal : List Entry) → IsRun journal → PeersStayReleased journal }
    ensures keys { (journal : List Entry) → IsRun journal → KeysStayReleased journal }
    ensures report { OfEveryLegal (λ r. PeersStayReleased r.journal × KeysStayReleased r.journal) }
{}

/// Worked examples of the definitions, each computed from them: where the replay window ends and where a gap
/// makes a floor, what a datagram and an inner packet are read as, how a datagram opens and doesn't, what
/// becomes of a message of each operation, the refusals of peer-new in their order, what peer-set replaces and
/// refuses, the operations on slots, the order of a dump, the look-ups, when a ping is due and a peer expires, the
/// order of a down, the look-up of a peer that was due, when a peer floats, and the next hop by routes.
pub fn examples()
    ensures window { WindowExamples }
    ensures datagrams { DatagramExamples }
    ensures packets { InnerExamples }
    ensures ids { IdExamples }
    ensures messages { (id : PeerId) (key : KeyId) → peer_id 5 ≡ Some id → key_id 2 ≡ Some key →
        MessageExamples id key }
    ensures new { (id other : PeerId) → (id.number == other.number) ≡ false → NewExamples id other }
    ensures set { (id other : PeerId) (k : Key) → (id.number == other.number) ≡ false →
        SetExamples id other k }
    ensures slots { (id : PeerId) (k l : Key) → SlotExamples id k l }
    ensures dump { (id other : PeerId) → id.number ≡ 5 → other.number ≡ 6 → DumpExamples id other }
    ensures looks { (id : PeerId) (k l : Key) → (id.number == 16777215) ≡ false →
        (k.key_id.number == l.key_id.number) ≡ false → LookExamples id k l }
    ensures tick { (id other : PeerId) (k : Key) → id.number ≡ 5 → other.number ≡ 6 → TickExamples id other k }
    ensures down { (id other : PeerId) (k : Key) → id.number ≡ 5 → other.number ≡ 6 → DownExamples id other k }
    ensures keep { (id : PeerId) (k : Key) → KeepExamples id k }
    ensures float { (id other : PeerId) → FloatExamples id other }
    ensures via { ViaExamples }
    ensures route { (id : PeerId) (k : Key) → RouteExample id k }
{}
