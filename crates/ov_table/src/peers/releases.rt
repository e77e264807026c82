//! Letting removed peers and retired keys go.

ghost use Rattle.std.specs.Prelude.{◌≡◌, ◌+◌, true, None};
ghost use Rattle.ov_model.specs.declared.reply.Reply.TheVariants as reply;
ghost use Rattle.ov_model.specs.Step as model;
ghost use Rattle.ov_table.specs.Outcomes.{outcome_with};
ghost use Rattle.ov_table.specs.Recorded.{unreleased};

use super::Peers;

impl Peers {
    /// A dying peer is let go.
    #[tactic(auto, unfolding(ov_model::specs::Step::released))]
    pub fn release(&mut self, now: u32, serial: u32)
        requires { model.is_there serial self.old.dying ≡ true }
        ensures value { outcome_with self.new (reply.Released serial) None None None ≡
            model.released self.old now serial }
        ensures fewer { unreleased self.new + 1 ≡ unreleased self.old }
    {
        self.dying.take(serial);
        self.moment = now;
    }

    /// A retired key is let go.
    #[tactic(auto, unfolding(ov_model::specs::Step::key_released))]
    pub fn release_key(&mut self, now: u32, serial: u32)
        requires { model.is_retired serial self.old.retired ≡ true }
        ensures value { outcome_with self.new (reply.KeyReleased serial) None None None ≡
            model.key_released self.old now serial }
        ensures fewer { unreleased self.new + 1 ≡ unreleased self.old }
    {
        self.retired.take(serial);
        self.moment = now;
    }
}
