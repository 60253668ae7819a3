// The panel check: refusal 5.
#![tactic(auto)]

ghost use Rattle.std.specs.Prelude.{◌≡◌, eqb};
ghost use Rattle.ground.specs.Lists.{sum, all};
ghost use Rattle.image.specs.Image.{path_counts, paths, families, paths_of};
ghost use Rattle.image.specs.Inner.{Framed, Grouped, Groups};
ghost use Rattle.families.specs.Families.{count_ok, names, no_twice, sound5a, sound5b, sound5};

fn are_counts(image: &[u8], h: image::Header) -> bool
    requires { Framed image.now h }
    ensures { result ≡ all count_ok (path_counts h image.now) }
{
    (0..h.families).all(|i| (1..=image::Header::PATHS).contains(&image::path_count(image, h, i)))
}

fn is_total(image: &[u8], h: image::Header) -> bool
    requires { Framed image.now h }
    ensures { result ≡ eqb (sum (path_counts h image.now)) h.paths }
{
    ground::adds_up(h.families, h.paths, |i| image::path_count(image, h, i))
}

fn are_named(image: &[u8], h: image::Header) -> bool
    requires { Framed image.now h }
    ensures { result ≡ all (names h) (paths h image.now) }
{
    (0..h.paths).all(|i| image::path_at(image, h, i) < h.lanes)
}

fn is_distinct(image: &[u8], h: image::Header, f: image::Family) -> bool
    requires { Groups image.now h f }
    ensures { result ≡ no_twice (paths_of h image.now f.number) }
{
    for i in 0..f.count {
        let lane = image::family_path(image, h, f, i);
        if (i + 1..f.count).any(|j| lane == image::family_path(image, h, f, j)) {
            return false;
        }
    }
    true
}

fn are_families(image: &[u8], h: image::Header) -> bool
    requires { Grouped image.now h }
    ensures { result ≡ all no_twice (families h image.now) }
{
    let mut start = 0;
    for i in 0..h.families {
        let f = image::family_from(image, h, i, start);
        if !is_distinct(image, h, f) {
            return false;
        }
        start = image::family_end(image, h, f);
    }
    true
}

#[tactic(auto, unfolding(crate::specs::Families::sound5a))]
pub fn is_grouped(image: &[u8], h: image::Header) -> bool
    requires { Framed image.now h }
    ensures { result ≡ sound5a h image.now }
{
    are_counts(image, h) && is_total(image, h)
}

#[tactic(auto, unfolding(crate::specs::Families::sound5b))]
pub fn are_paths(image: &[u8], h: image::Header) -> bool
    requires { Grouped image.now h }
    ensures { result ≡ sound5b h image.now }
{
    are_named(image, h) && are_families(image, h)
}

#[tactic(auto, using(crate::proofs::Laws::grouped_told), unfolding(crate::specs::Families::sound5))]
pub fn is_familied(image: &[u8], h: image::Header) -> bool
    requires { Framed image.now h }
    ensures { result ≡ sound5 h image.now }
{
    is_grouped(image, h) && are_paths(image, h)
}
