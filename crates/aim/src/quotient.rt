// A whole number divided by a power of two: exact, since a float holds both and their quotient.
ghost use Rattle.std.specs.Prelude.{◌≡◌};
ghost use Rattle.aim.specs.Quotient.{format, quotient, Representable};

pub(crate) fn quotient(z: i32, d: u32) -> f32
    requires { Representable format z d }
    ensures { result ≡ quotient format z d }
{
    (z as f32) / (d as f32)
}
