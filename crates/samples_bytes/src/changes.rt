// The bytes of a shadow that a call changed.
ghost use Rattle.std.specs.Prelude.{◌≡◌, length};
ghost use Rattle.samples_bytes.specs.Changes.{change_end, change_start};

// The place after the last byte that differs.
pub fn change_end(old: &[u8], new: &[u8]) -> Option<usize>
    requires { length old.now ≡ length new.now }
    ensures { result ≡ change_end old.now new.now }
{
    let mut end = None;
    for i in 0..old.len() {
        if old[i] != new[i] {
            end = Some(i + 1);
        }
    }
    end
}

// The place of the first byte that differs.
pub fn change_start(old: &[u8], new: &[u8]) -> Option<usize>
    requires { length old.now ≡ length new.now }
    ensures { result ≡ change_start old.now new.now }
{
    old.iter().zip(new.iter()).position(|(a, b)| *a != *b)
}
