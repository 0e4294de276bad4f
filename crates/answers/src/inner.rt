// What a host is told: the number, and the rest through what it lends.
ghost use Rattle.std.specs.Prelude.{◌≡◌, ◌^◌, ◌<◌};
ghost use Rattle.plan.specs.Structs.{answer_of};
ghost use Rattle.theory.specs.Narrow.{Narrow};
ghost use Rattle.answers.specs.Told.{said};

use plan::Refusal;

// Of a call that answers no place: the number alone.
pub fn number<T: Copy>(ended: Result<T, Refusal>) -> u32
    requires { (answer_of ended).number < 2 ^ 32 }
    ensures { result ≡ (answer_of ended).number }
{
    match ended {
        Ok(_) => 0,
        Err(refusal) => refusal.number() as u32,
    }
}

// Of a call that tests no samples.
pub fn told<T: Copy>(ended: Result<T, Refusal>, place: &mut u32) -> u32
    requires { Narrow (answer_of ended) }
    ensures { (answer_of ended).bad ≡ 0 → said result place.new 0 ≡ answer_of ended }
{
    let mut none = 0;
    checked(ended, place, &mut none)
}

// Of one that does.
pub fn checked<T: Copy>(ended: Result<T, Refusal>, place: &mut u32, bad: &mut u32) -> u32
    requires { Narrow (answer_of ended) }
    ensures { said result place.new bad.new ≡ answer_of ended }
{
    match ended {
        Ok(_) => {
            *place = 0;
            *bad = 0;
            0
        }
        Err(refusal) => {
            *place = refusal.position() as u32;
            *bad = refusal.bad() as u32;
            refusal.number() as u32
        }
    }
}
