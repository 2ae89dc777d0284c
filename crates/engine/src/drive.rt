ghost use Rattle.std.specs.Prelude.{◌≡◌};
ghost use Rattle.engine.specs.Steps.{subject, SoundAt, Goes, Ends, Kept};

use crate::mode::Mode;
use crate::setting::Setting;
use crate::tables::Tables;
use evaluate::PENDING;
use fields::FieldReader;
use input::Input;

impl<'a> Tables<'a> {
    // One step.
    #[tactic(auto, using(crate::proofs::Driving::sound_at, crate::proofs::Driving::stays, crate::proofs::Driving::rest_stops), unfolding(crate::specs::Configs::Sound))]
    fn step<I: Input, R: FieldReader>(
        &mut self,
        setting: &Setting<I, R>,
        mode: Mode,
        numbers: &mut [u64; PENDING],
    ) -> Mode
        requires { SoundAt (subject I.Input.shown R.FieldReader.meaning setting.now) self.old mode }
        ensures goes { Goes (subject I.Input.shown R.FieldReader.meaning setting.now) self.old mode self.new result }
        ensures kept { Kept self.old self.new }
    {
        match mode {
            Mode::Begins(c) => self.begin(setting, c),
            Mode::Runs(f) => self.run_next(setting, f, numbers),
            Mode::Tries(c, i, k) => self.try_next(setting.grammar, c, i, k),
            Mode::Returns(me) => self.give_back(me),
            Mode::GivesUp(me) => self.give_up(me),
            Mode::Matched | Mode::Failed | Mode::Stopped(_) => mode,
        }
    }

    // All steps.
    pub(crate) fn drive<I: Input, R: FieldReader>(
        &mut self,
        setting: &Setting<I, R>,
        first: Mode,
        numbers: &mut [u64; PENDING],
    ) -> Mode
        requires { SoundAt (subject I.Input.shown R.FieldReader.meaning setting.now) self.old first }
        ensures ends { Ends (subject I.Input.shown R.FieldReader.meaning setting.now) self.old first self.new result }
        ensures sound { SoundAt (subject I.Input.shown R.FieldReader.meaning setting.now) self.new result }
        ensures frames { self.new.stack.slots.ghost_name ≡ self.old.stack.slots.ghost_name }
        ensures nodes { self.new.nodes.ghost_name ≡ self.old.nodes.ghost_name }
    {
        let mut mode = first;
        while mode.goes_on() {
            mode = self.step(setting, mode, numbers);
        }
        mode
    }
}
