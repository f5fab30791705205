ghost use Rattle.std.specs.Prelude.{◌≡◌, is_some, if◌then◌else◌};
ghost use Rattle.generated_system.specs.Draws.{draw, drawn_from, draws_taken, feeder_drawn, next_number, number_after};

use crate::drawn::{Drawn, DrawnMachine};

/// A sequence of draws, by the number that the last one left.
#[derive(Debug, Drop)]
pub(crate) struct Draws {
    pub number: u32,
}

impl Draws {
    /// The next draw, below 2^15.
    #[tactic(auto, unfolding(crate::specs::Draws::next_number, crate::specs::Draws::number_after, crate::specs::Draws::draw))]
    pub(crate) fn draw(&mut self) -> u32
        ensures number { self.new.number ≡ next_number self.old.number }
        ensures draw { result ≡ draw self.old.number 0 }
    {
        let number = (u64::from(self.number) * 1_103_515_245 + 12_345) % 0x8000_0000;
        self.number = number as u32;
        self.number / 65_536
    }

    /// What is drawn for the component with a number.
    #[tactic(auto, unfolding(crate::specs::Draws::number_after, crate::specs::Draws::draw, crate::specs::Draws::drawn_from))]
    pub(crate) fn draw_component(&mut self, component: usize) -> Drawn
        ensures drawn { result ≡ drawn_from self.old.number component }
        ensures number { self.new.number ≡ number_after self.old.number (draws_taken result) }
    {
        let machine = DrawnMachine::from_draw(self.draw());
        let parameter = machine.parameter(self.draw());
        let feeder = self.draw_feeder(component, machine);
        Drawn {
            machine,
            parameter,
            feeder,
        }
    }

    // A gain but the first component is fed by one before it.
    #[tactic(auto, unfolding(crate::specs::Draws::number_after))]
    fn draw_feeder(&mut self, component: usize, machine: DrawnMachine) -> Option<usize>
        ensures feeder { result ≡ feeder_drawn component machine (draw self.old.number 0) }
        ensures number { self.new.number ≡ number_after self.old.number
            (if is_some result then 1 else 0) }
    {
        if component == 0 || machine != DrawnMachine::Gain {
            return None;
        }
        Some(self.draw() as usize % component)
    }
}
