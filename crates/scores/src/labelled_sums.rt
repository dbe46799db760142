// Sums of the scores of the subjects with a label.
ghost use Rattle.std.specs.Prelude.{◌≡◌, ◌≤◌, ◌+◌, ◌+ℤ◌, pos, nat_eq, unsigned_abs, if◌then◌else◌};
ghost use Rattle.weights.specs.declared.TheConstants.{MAX};
ghost use Rattle.scores.specs.Scores.{labelled_sum};
ghost use Rattle.weights.specs.Numbers.{absolute_sum};

// A sum with the score of one more subject, where its own label is this one.
fn plus_labelled(sum: i128, score: i128, own: u8, label: u64) -> i128
    requires { unsigned_abs sum + unsigned_abs score ≤ MAX }
    ensures { result ≡ sum +ℤ (if nat_eq own label then score else pos 0) }
{
    if own as u64 == label {
        sum + score
    } else {
        sum
    }
}

/// The sum of the scores of the subjects with a label, where each score has the label at its place.
pub fn labelled_sum(scores: &[i128], labels: &[u8], label: u64) -> i128
    requires { absolute_sum scores.now ≤ MAX }
    ensures { result ≡ labelled_sum label scores.now labels.now }
{
    let mut sum: i128 = 0;
    for i in 0..scores.len().min(labels.len()) {
        sum = plus_labelled(sum, scores[i], labels[i], label);
    }
    sum
}
