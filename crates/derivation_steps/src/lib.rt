// Derivations written out in bytes, step by step: definitions and theorems in specs/, and a step read and written.
#![tactic(auto)]

ghost use Rattle.derivation_steps.specs.StepBytes.{Reads, Puts};

// A replacement: at a place of the present chain, by the rule of a number as it stands (side 0) or by its inverse (side 1).
#[derive(Clone, Copy)]
pub struct WrittenStep {
    pub place: usize,
    pub number: usize,
    pub side: usize,
}

// Step k of some bytes, all zeros where they do not go so far.
pub fn step_of(steps: &[u8], k: usize) -> WrittenStep
    ensures { Reads steps.now k result }
{
    if steps.len() / 4 <= k {
        return WrittenStep {
            place: 0,
            number: 0,
            side: 0,
        };
    }
    let at = 4 * k;
    WrittenStep {
        place: steps[at] as usize + 256 * steps[at + 1] as usize,
        number: steps[at + 2] as usize,
        side: steps[at + 3] as usize,
    }
}

// Writes step k into some bytes, of each number what has room there; nothing where they do not go so far.
pub fn put_step(steps: &mut [u8], k: usize, step: WrittenStep)
    ensures { Puts steps.old k step steps.new }
{
    if steps.len() / 4 <= k {
        return;
    }
    let at = 4 * k;
    steps[at] = (step.place % 256) as u8;
    steps[at + 1] = (step.place / 256 % 256) as u8;
    steps[at + 2] = (step.number % 256) as u8;
    steps[at + 3] = (step.side % 256) as u8;
}
