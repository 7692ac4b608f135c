//! What a commit does to the vector of its group's head.

ghost use Rattle.std.specs.Prelude.{◌≡◌, ◌<◌, ℕ, true};
ghost use Rattle.ftc_base.specs.Sets.{has};
ghost use Rattle.ftc_vector.specs.Vector.{number_at, raised, marks_of};

use crate::marks::Marks;
use crate::vector::Vector;
use ftc_base::PartSet;
use ftc_base::limits::MOST_PARTITIONS;

/// The numbers of the touched partitions.
pub fn numbers_at(vector: &Vector, touched: PartSet) -> Marks
    ensures { result ≡ marks_of vector.now touched }
{
    let mut marks = Marks::new();
    for partition in 0..MOST_PARTITIONS {
        if touched.has(partition) {
            marks.set(partition, vector.at(partition));
        }
    }
    marks
}

/// Raises the number of each changed partition by 1, and answers the numbers that the touched
/// partitions had before.
pub fn bump(vector: &mut Vector, touched: PartSet, changed: PartSet) -> Marks
    requires { (partition : ℕ) → partition < MOST_PARTITIONS → has changed partition ≡ true →
        number_at vector.old partition < u64.MAX }
    ensures raised { vector.new ≡ raised vector.old changed }
    ensures before { result ≡ marks_of vector.old touched }
{
    let before = numbers_at(vector, touched);
    vector.raise(changed);
    before
}
