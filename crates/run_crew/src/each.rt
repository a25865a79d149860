//! Work on each item of a slice, side by side.
ghost use Rattle.std.specs.Prelude.{◌≡◌, ◌<◌, ◌≤◌, ℕ, All, length, slice_index_or};
ghost use Rattle.run_crew.specs.inside.Each.{EachBecame};

use std::thread;
use std::thread::Threads;

/// What is done to each item of a slice. The value is shared by the threads that do it.
pub(crate) trait Works<T> {
    /// What is known of an item before.
    ghost may: { Self → T → Type 0 };

    /// What is known of an item and of what became of it.
    ghost has: { Self → T → T → Type 0 };

    /// Works on an item.
    fn work(&self, item: &mut T)
        requires may { may self.now item.old }
        ensures has { has self.now item.old item.new };
}

/// Works on each item of a slice, on a thread of its own.
fn work_on_each<T: Send, X: Works<T> + Sync, R: Threads + Sync>(rt: &R, shared: &X, items: &mut [T])
    requires some { 0 < length items.old }
    requires may { All (λ item. X.may shared.now item) items.old }
    ensures has { EachBecame (length items.old) (X.has shared.now) items.old items.new }
{
    let threads = items.len();
    thread::for_each_mut(
        rt,
        items,
        threads,
        &|_, item|
            requires may { X.may shared.now item.old }
            ensures has { X.has shared.entry.now item.old item.new }
        { shared.work(item) },
    );
}

/// Works on each of the first items of a slice, on a thread of its own.
pub(crate) fn work_on_first<T: Send, X: Works<T> + Sync, R: Threads + Sync>(
    rt: &R,
    shared: &X,
    items: &mut [T],
    count: usize,
)
    requires some { 0 < count }
    requires within { count ≤ length items.old }
    requires may { All (λ item. X.may shared.now item) items.old }
    ensures size { length items.new ≡ length items.old }
    ensures has { EachBecame count (X.has shared.now) items.old items.new }
    ensures others { (k : ℕ) (d : _) → count ≤ k → slice_index_or items.new k d ≡ slice_index_or items.old k d }
{
    work_on_each(rt, shared, &mut items[..count]);
}
