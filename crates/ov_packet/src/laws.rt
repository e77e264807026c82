// Laws of the definitions that the contracts cite. Each is a function that does nothing.

ghost use Rattle.std.specs.Prelude.{◌≡◌, ◌≤◌, ◌++◌, ℕ, List, length, drop};
ghost use Rattle.ov_model.specs.Limits.{greatest_key_id, greatest_packet_id, greatest_peer_id, head_length, tag_length};
ghost use Rattle.ov_model.specs.Packets.{head_of, head_bytes, data_v2};

/// The bytes of a head, with a tag's bytes or more behind them, read as that head, which ends where they begin.
pub fn head_reads_back()
    ensures reads { (id key_id packet_id : ℕ) (rest : List ℕ) →
        id ≤ greatest_peer_id → key_id ≤ greatest_key_id → packet_id ≤ greatest_packet_id →
        tag_length ≤ length rest →
        head_of (head_bytes id key_id packet_id ++ rest) ≡ data_v2 id key_id packet_id }
    ensures behind { (id key_id packet_id : ℕ) (rest : List ℕ) →
        drop head_length (head_bytes id key_id packet_id ++ rest) ≡ rest }
{}
