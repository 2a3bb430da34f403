// Whether a value of the link type is a link.
ghost use Rattle.std.specs.Prelude.{◌≡◌};
ghost use Rattle.dlc_queue.specs.Queue.{held, at_rest};
ghost use Rattle.dlc.specs.View.{state_fits, well_formed};

use crate::Link;
use dlc_packet::MODULUS;
use dlc_table::State;

impl Link {
    // Whether this is a link: what the queue, the numbers, the edition and the state may be, and how they go together.
    #[tactic(auto, unfolding(crate::specs::View::well_formed))]
    pub fn well_formed(self) -> bool
        ensures { result ≡ well_formed self }
    {
        self.queue.well_formed()
            && self.base < MODULUS
            && self.expected < MODULUS
            && dlc_packet::known_edition(self.edition)
            && self.state_fits()
    }

    // Whether the state goes with the queue and the numbers.
    fn state_fits(self) -> bool
        ensures { result ≡ state_fits self.state (held self.queue) (at_rest self.queue) self.base self.expected }
    {
        match self.state {
            State::Idle | State::Reset => self.queue.at_rest()
                && self.base == 0
                && self.expected == 0,
            State::Data => self.queue.len() == 0,
            State::Wait => 0 < self.queue.len(),
        }
    }
}
