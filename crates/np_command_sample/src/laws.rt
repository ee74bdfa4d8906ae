//! What follows from the definition of a sample. Each law is the contract of a call that does nothing.
ghost use Rattle.std.specs.Prelude.{◌≡◌, ◌<◌, ◌≤◌, ◌*◌, ◌^◌, ℕ, [], ◌∷◌, Ok, Option, length};
ghost use Rattle.np_reading.specs.Prelude.{estate_of};
ghost use Rattle.np_fold.specs.Prelude.{workload_count};
ghost use Rattle.np_routes.specs.Prelude.{cluster_rows, cluster_table};
ghost use Rattle.np_command_sample.specs.Prelude.{sample_estate};
ghost use Rattle.np_sample.specs.Prelude.{sample_text};

use np_fold::MOST_WORKLOADS;

/// What reads the text of a sample gives its estate, and refuses nothing.
pub fn samples_are_read_as_their_estates()
    ensures { (n : ℕ) → n ≤ 1000 → estate_of (sample_text n ∷ []) ≡ Ok (sample_estate n) }
{}

/// A sample has at most as many workloads as pods, and so no more than may be folded.
pub fn samples_have_few_workloads()
    ensures pods { (n : ℕ) → workload_count (sample_estate n) ≤ n }
    ensures few { (n : ℕ) → n ≤ 1000 → workload_count (sample_estate n) ≤ MOST_WORKLOADS }
{}

/// The rows of a sample can be counted: there are fewer than 2^64, whatever the controller of ingresses is.
pub fn samples_have_few_rows()
    ensures { (n : ℕ) (controller : Option ℕ) → n ≤ 1000 →
        length (cluster_rows (cluster_table (sample_estate n) controller)) < 2 ^ 64 }
{}

/// The text of a sample has at most 32 MiB, and so is not refused as too large.
pub fn samples_have_few_bytes()
    ensures { (n : ℕ) → n ≤ 1000 → length (sample_text n) ≤ 32 * 2 ^ 20 }
{}
