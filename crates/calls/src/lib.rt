// How a call on a slice file goes: the file is judged first, and its refusal is handed on. And the first of the calls, power up.
#![tactic(auto)]

ghost use Rattle.std.specs.Prelude.{◌≡◌, ◌*◌, length};
ghost use Rattle.column.specs.Clock.{power_up};
ghost use Rattle.calls.specs.Calls.{refusal_of, PowersUp};

use column::Sound;
use slicefile::{POWER_UP, Reason, Refusal, Size, Verdict};

// The judge's refusal as the answer of a call.
pub fn refusal(verdict: Verdict) -> Result<(), Refusal>
    ensures { result ≡ refusal_of verdict }
{
    verdict.map(|_| ())
}

// Fills the contents with those of a sound file.
#[tactic(auto, using(plan::proofs::Numbers::sound_for, slicefile::proofs::Filling::filled_all), unfolding(column::specs::Clock::power_up))]
fn fill_contents(sound: &Sound, contents: &mut [u64])
    requires { length contents.old ≡ 4 * sound.now.n }
    ensures { contents.new ≡ (power_up sound.now.file.now).contents }
{
    for (t, word) in contents.iter_mut().enumerate() {
        let slice = sound.slice(t / 4);
        *word = slicefile::contents_word(slice.body, t % 4);
    }
}

// Fills the flip-flops with the power-up bits of a sound file.
#[tactic(auto, using(plan::proofs::Numbers::sound_for, slicefile::proofs::Filling::filled_all), unfolding(column::specs::Clock::power_up))]
fn fill_flops(sound: &Sound, flops: &mut [u8])
    requires { length flops.old ≡ sound.now.n }
    ensures { flops.new ≡ (power_up sound.now.file.now).flops }
{
    for (s, flop) in flops.iter_mut().enumerate() {
        let slice = sound.slice(s);
        *flop = slice.body[POWER_UP];
    }
}

// Fills 4n words of contents and n flip-flop bytes with the state at power-up.
#[tactic(auto, using(crate::proofs::Powers::powers))]
pub fn power_up(file: &[u8], contents: &mut [u64], flops: &mut [u8]) -> Result<(), Refusal>
    ensures { PowersUp file contents flops result }
{
    let Size { n, m } = column::judge(file)?;
    if buffers::bad_state(n, contents, flops) {
        return Err(Reason::WrongBuffer.at(0));
    }
    let sound = Sound { file, n, m };
    fill_contents(&sound, contents);
    fill_flops(&sound, flops);
    Ok(())
}
