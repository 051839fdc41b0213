ghost use Rattle.std.specs.Prelude.{◌≡◌, ℕ, ◌<◌, true, false};
ghost use Rattle.span_laws.specs.Asks.{IsAtWork};
ghost use Rattle.sweep_laws.specs.Reading.{is_swept_set};
ghost use Rattle.worker_log.specs.Entries.{is_seen_empty, many};
ghost use Rattle.span_set.specs.Resets.{Resets};

use span_table::{SETS, Shared, Worker};

/// Resets all unswept sets for the next mark end, where the driver saw each of them empty since the last one. Takes no memory.
pub fn reset(shared: &Shared, driver: &mut Worker)
    requires works { IsAtWork shared.now driver.old }
    requires empty { (k : ℕ) → k < 544 → is_swept_set driver.old.view.generation k ≡ false → 0 < many (is_seen_empty k) driver.old.view.own.log }
    ensures { Resets driver.old driver.new }
{
    let generation = shared.generation(driver);
    let part = (generation / 2 % 2) as u32;
    for set in 0..SETS {
        if set % 2 != part {
            shared.reset_set(driver, set);
        }
    }
}
