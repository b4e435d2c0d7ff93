// A script: one item for each exchange.
ghost use Rattle.std.specs.Prelude.{◌≡◌, slice_get};
ghost use Rattle.sensor.specs.Scripts.{past};

// What a script says next, which uses it up; nothing after its end.
pub fn take_next<T: Copy>(script: &[T], at: &mut usize) -> Option<T>
    ensures next { result ≡ slice_get script.now at.old }
    ensures at { at.new ≡ past script.now at.old }
{
    let next = *script.get(*at)?;
    *at += 1;
    Some(next)
}
