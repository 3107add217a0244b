// The mean of the samples of sound neighbours, of either sample kind.
#![tactic(auto)]

ghost use Rattle.std.specs.Prelude.{◌≡◌, ◌≤◌, length};
ghost use Rattle.dng.specs.Repair.{mean_of};
ghost use Rattle.fix_means.specs.Means.{Reads, mean_in};

use sample::Sample;

// A sum over so many, divided by how many they are.
fn divided(sum: f32, n: usize) -> f32
    requires { n ≤ 8 }
    ensures { result ≡ mean_of (record { sum = sum; n = n }) }
{
    sum / num_convert::f32_of_u16(n as u16)
}

// The mean of the pixels' samples in one plane: f32 sum from 0, in order, one division.
pub fn mean<S: Sample>(samples: &[S], at: &[usize], plane: usize) -> f32
    requires { Reads (length samples.now) at.now plane }
    ensures { result ≡ mean_in S.none S.to_float samples.now at.now plane }
{
    let mut sum: f32 = 0.0;
    for a in at {
        sum += samples[*a + plane].to_f32();
    }
    divided(sum, at.len())
}
