// One dilation or erosion of a picture, done centre by centre.
ghost use Rattle.std.specs.Prelude.{◌≡◌, ◌<◌, ◌≤◌, length, take};
ghost use Rattle.maps.specs.Windows.{pixels_of};
ghost use Rattle.maps.specs.Grounds.{ground};
ghost use Rattle.morphology.specs.Bounds.{JoinOf};
ghost use Rattle.morphology.specs.Neighbourhoods.{Weak};
ghost use Rattle.morphology.specs.Pictures.{dilation};
ghost use Rattle.neighbourhoods.specs.Zeros.{zeros};
ghost use Rattle.neighbourhoods.specs.Listings.{In, Lists};
ghost use Rattle.operators.specs.Steps.{towards, Ready, Within, Once, OwnOrOver, AllPut, Spread};

use crate::operator::Operator;
use criteria::Criterion;
use maps::Map;
use neighbourhoods::flood;
use scales::Scale;

// One value and the picture's values at the listed pixels, joined or met.
fn gather<O: Operator, S: Scale>(operator: O, own: S, picture: &[S], pixels: &[u32]) -> S
    requires { Within (length picture.now) pixels.now }
    ensures { JoinOf (towards O.up S.grading) (OwnOrOver own (In pixels.now) picture.now) result }
{
    let mut all = own;
    for &pixel in pixels {
        all = operator.pick(all, picture[pixel as usize]);
    }
    all
}

// Joins the value into the spare picture at each of the listed pixels, or meets it.
fn put<O: Operator, S: Scale>(operator: O, spare: &mut [S], pixels: &[u32], v: S)
    requires within { Within (length spare.old) pixels.now }
    requires once { Once pixels.now }
    ensures { AllPut (towards O.up S.grading) (In pixels.now) v spare.old spare.new }
{
    for &pixel in pixels {
        let pixel = pixel as usize;
        spare[pixel] = operator.pick(spare[pixel], v);
    }
}

// Floods from z: the head of the queue then lists the weak neighbourhood of z, as many pixels as the answer says.
fn flood_from<C: Criterion>(
    criterion: &C,
    map: &Map<C::Value>,
    z: usize,
    marks: &mut [u8],
    queue: &mut [u32],
) -> usize
    requires clear { marks.old ≡ zeros (length marks.old) }
    requires pixel { z < pixels_of map.now }
    requires marks { pixels_of map.now ≤ length marks.old }
    requires queue { pixels_of map.now ≤ length queue.old }
    ensures count { result ≤ length queue.new }
    ensures listed { Lists (Weak (ground (C.judgement criterion.now) map.now) z) (take result queue.new) }
    ensures marks { marks.new ≡ marks.old }
{
    flood(criterion, map, z, marks, queue).unwrap()
}

// Joins the picture over the weak neighbourhood of z, or meets it, and puts that into the spare picture at each of its pixels.
// The value at z is joined in first: it lies in its own neighbourhood, unless there is no pixel in it, and then nothing is put.
fn spread<O: Operator, C: Criterion, S: Scale>(
    operator: O,
    map: &Map<C::Value>,
    criterion: &C,
    z: usize,
    picture: &[S],
    marks: &mut [u8],
    queue: &mut [u32],
    spare: &mut [S],
)
    requires ready { Ready (pixels_of map.now) marks.old (length queue.old) (length picture.now) (length spare.old) }
    requires pixel { z < pixels_of map.now }
    ensures spare { Spread (towards O.up S.grading) (ground (C.judgement criterion.now) map.now) z
        picture.now spare.old spare.new }
    ensures marks { marks.new ≡ marks.old }
{
    let count = flood_from(criterion, map, z, marks, queue);
    let pixels = &queue[..count];
    let v = gather(operator, picture[z], picture, pixels);
    put(operator, spare, pixels, v);
}

// One dilation of the picture, or one erosion: a flood from each pixel in turn.
pub(crate) fn step<O: Operator, C: Criterion, S: Scale>(
    operator: O,
    map: &Map<C::Value>,
    criterion: &C,
    picture: &mut [S],
    marks: &mut [u8],
    queue: &mut [u32],
    spare: &mut [S],
)
    requires { Ready (pixels_of map.now) marks.old (length queue.old) (length picture.old) (length spare.old) }
    ensures picture { picture.new ≡
        dilation (towards O.up S.grading) (ground (C.judgement criterion.now) map.now) picture.old }
    ensures marks { marks.new ≡ marks.old }
{
    spare.copy_from_slice(picture);
    for z in 0..picture.len() {
        spread(operator, map, criterion, z, picture, marks, queue, spare);
    }
    picture.copy_from_slice(spare);
}
