//! What a run that is over tells of a sphere.
ghost use Rattle.std.specs.Prelude.{◌≡◌, ◌<◌, List, length};
ghost use Rattle.spec_play.specs.Progress.{position};
ghost use Rattle.spec_protocol.specs.declared.event.Event.{Event};
ghost use Rattle.spec_protocol.specs.promises.Sound.{image_at};
ghost use Rattle.spec_protocol.specs.machine.World.{sphere_at};
ghost use Rattle.spec_run.specs.Promise.{end_as};
ghost use Rattle.dl_sphere.specs.Setups.{role_setup};
ghost use Rattle.dl_run.specs.Ran.{IsOver};

use crate::run::Run;
use dl_entry::End;
use dl_sphere::{Role, Sphere};

impl Run {
    /// The role that a sphere was set up with.
    pub(crate) fn role(&self, sphere: usize) -> &Role
        requires { sphere < length self.now.setup.spheres }
        ensures value { role_setup result.now ≡ (image_at self.now.setup sphere).role }
        ensures over { (es : List Event) × IsOver es self.now }
    {
        &self.setup.spheres.as_slice()[sphere].role
    }

    /// A sphere of the machine.
    pub(crate) fn sphere(&self, sphere: usize) -> &Sphere
        requires { sphere < length self.now.setup.spheres }
        ensures value { result.now.sphere ≡ sphere_at self.now.world sphere }
        ensures over { (es : List Event) × IsOver es self.now }
    {
        self.machine.sphere(sphere as u8)
    }

    /// How a sphere ended: a replayed one as its log's play, and the others with all their commits.
    pub(crate) fn end(&self, sphere: usize) -> End
        requires { sphere < length self.now.setup.spheres }
        ensures { let p = sphere_at self.now.world sphere in result ≡ end_as p.role (position p.progress) }
    {
        match self.sphere(sphere).end() {
            Some(end) => end,
            None => End::Complete(self.commits(sphere)),
        }
    }

    /// How many commits a sphere has done, those before its first one too.
    pub(crate) fn commits(&self, sphere: usize) -> u32
        requires { sphere < length self.now.setup.spheres }
        ensures { result ≡ position (sphere_at self.now.world sphere).progress }
    {
        self.sphere(sphere).done()
    }

    /// How many it has done from its first one on.
    pub(crate) fn since_first(&self, sphere: usize) -> u32
        requires { sphere < length self.now.setup.spheres }
        ensures { result ≡ length (sphere_at self.now.world sphere).progress.commits }
    {
        let sphere = self.sphere(sphere);
        sphere.done() - sphere.first()
    }
}
