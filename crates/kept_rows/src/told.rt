ghost use Rattle.std.specs.Prelude.{◌≡◌};
ghost use Rattle.kept_rows.specs.Told.{told_by_row};

use deltastep::Distances;

/// What a landmark's row says of the walks from one node to another: nothing if it shows that there is none; otherwise by how much the landmark's way to
/// the target is longer than its way to the source, or 0.
pub fn told_by(row: &Distances, source: u64, target: u64) -> Option<u64>
    ensures { result ≡ told_by_row row.now source target }
{
    let Some(to_source) = row.get(source) else {
        return Some(0);
    };
    let to_target = row.get(target)?;
    Some(to_target.saturating_sub(to_source))
}
