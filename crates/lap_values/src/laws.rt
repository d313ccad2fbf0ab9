//! Laws of services that read storage, as contracts of functions that do nothing.

ghost use Rattle.lap_values.specs.Laws.{ValuesArrive, StringsArrive, AllServicesArrive};

/// Where the words end with a value, their items end the run with the value that is shown alike.
pub fn values_arrive()
    ensures { ValuesArrive }
{}

/// Where the words put a string, their items put the same bytes and go on.
pub fn strings_arrive()
    ensures { StringsArrive }
{}

/// The items of every service that a whole program may ask for come to what the service comes to.
pub fn all_services_arrive()
    ensures { AllServicesArrive }
{}
