// Moves inside a slice whose first n elements are a list.
ghost use Rattle.std.specs.Prelude.{◌≡◌, ◌+◌, ◌-◌, ◌<◌, ◌≤◌, length, take};
ghost use Rattle.std.specs.List.{insert, remove};

// Among the first n of s, what stands from i on moves one place up, over the place n, and x comes to i.
pub(crate) fn put_in<T: Copy>(s: &mut [T], i: usize, n: usize, x: T)
    requires place { i ≤ n }
    requires room { n < length s.old }
    ensures { take (n + 1) s.new ≡ insert (take n s.old) i x }
{
    s[n] = x;
    s[i..n + 1].rotate_right(1);
}

// Among the first n of s, what stands after i moves one place down.
pub(crate) fn take_out<T: Copy>(s: &mut [T], i: usize, n: usize)
    requires place { i < n }
    requires room { n ≤ length s.old }
    ensures { take (n - 1) s.new ≡ remove (take n s.old) i }
{
    s[i..n].rotate_left(1);
}
