ghost use Rattle.std.specs.Prelude.{◌≡◌, ◌<◌, IsTrue};
ghost use Rattle.core_ir.specs.Programs.{program_of};
ghost use Rattle.core_ir.specs.StepsFit.{function_count};

use core_ir::CoreProgram;
use std::alloc::Global;
use sv_base::NoMemory;

/// A program, with tables for what its steps name.
#[derive(Clone, Copy)]
pub(crate) struct Setting<'a> {
    pub(crate) core: &'a CoreProgram,
    /// By region class, the object of which it is the whole region.
    pub(crate) objects: &'a [Option<u32>],
    /// By type, the first function of it. All functions of a type have the same parameters and results.
    pub(crate) models: &'a [Option<u32>],
}

fn is_whole_region(region: Option<u32>, class: u32) -> bool
    ensures { IsTrue result → region ≡ Some class }
{
    match region {
        Some(own) => own == class,
        None => false,
    }
}

/// By region class, the object of which it is the whole region.
pub(crate) fn objects_of(alloc: Global, core: &CoreProgram) -> Result<Vec<Option<u32>>, NoMemory> {
    let mut objects: Vec<Option<u32>> = Vec::new(alloc);
    for _ in &core.classes.regions {
        objects.push(None)?;
    }
    let mut number = 0u32;
    for object in &core.objects {
        if let Some(region) = object.region {
            if let Some(place) = objects.get_mut(region as usize) {
                *place = Some(number);
            }
        }
        number = number.checked_add(1).ok_or(NoMemory)?;
    }
    Ok(objects)
}

impl<'a> Setting<'a> {
    pub(crate) fn is_object(&self, class: u32) -> bool {
        let Some(Some(number)) = self.objects.get(class as usize) else {
            return false;
        };
        match self.core.objects.get(*number as usize) {
            Some(object) => is_whole_region(object.region, class),
            None => false,
        }
    }

    pub(crate) fn is_function(&self, g: u32) -> bool
        ensures { IsTrue result → g < function_count (program_of self.now.core.now) }
    {
        let defined = self.core.functions.len() as u64;
        let count = defined.saturating_add(self.core.externals.len() as u64);
        u64::from(g) < count
    }
}
